//! What a parked call leaves with the channel, and what wakes it.
ghost use Rattle.std.specs.Prelude.{◌≡◌, ◌≢◌, true, false, IfSome};
ghost use Rattle.flume_deadline.specs.declared.Deadline.{Deadline};
ghost use Rattle.flume_deadline.specs.Deadlines.{CanBeAhead};

use crate::backoff::{PAUSES_AFTER_WAKE, pause};
use flume_deadline::{Deadline, left_until};
use futures::task::Waker;
use std::alloc::{Allocator, Global};
use std::cell::Cell;
use std::hint::spin_loop;
use std::sync::atomic::{AtomicU64, Ordering};
use std::sync::{Arc, Condvar, Mutex, Wait};
use std::thread::yield_now;
use std::time::{Clock, Instant};

// What a parker's word says: no wake, a wake that wasn't taken, or its call sleeps.
const IDLE: u64 = 0;

const FIRED: u64 = 1;

const ASLEEP: u64 = 2;

pub(crate) const YIELDS: u32 = 20;

/// What a blocking call waits on. Wakes that came before a wait end it at once, and count as one.
#[derive(Drop)]
pub struct Parker {
    word: AtomicU64,
    checks: u32,
    // Locked from a call's last look at the word until it sleeps, so that it isn't notified before.
    falling_asleep: Mutex<()>,
    changed: Condvar,
}

impl Parker {
    /// A parker without a wake. A wait checks so often for one before it sleeps.
    /// ```
    /// let parker = Parker::new(0);
    /// parker.fire(&rt);
    /// parker.wait(&rt);                  // returns at once
    /// ```
    pub const fn new(checks: u32) -> Parker {
        Parker {
            word: AtomicU64::new(IDLE),
            checks,
            falling_asleep: Mutex::new(()),
            changed: Condvar::new(),
        }
    }

    /// Wakes the call that waits, or the next one that will. No system call, if none sleeps.
    pub fn fire<R: Wait>(&self, rt: &R) {
        if self.word.swap(FIRED, Ordering::SeqCst) == ASLEEP {
            drop(self.falling_asleep.lock(rt));
            self.changed.notify_one();
        }
    }

    /// Waits for a wake, and takes it.
    pub fn wait<R: Wait>(&self, rt: &R) {
        if self.spin() {
            return;
        }
        let mut awake = self.falling_asleep.lock(rt);
        for _ in rt.forever() {
            if self.take() {
                return;
            }
            if self.begin_sleep() {
                awake = self.changed.wait(rt, awake);
            }
        }
        unreachable!()
    }

    /// Waits for a wake, up to the deadline. A clock that can't be read counts as past it.
    /// ```
    /// parker.wait_until(&rt, Instant::now(&rt)?);    // returns at once
    /// ```
    pub fn wait_until<R: Wait + Clock>(&self, rt: &R, deadline: Instant) {
        if self.spin() {
            return;
        }
        let mut awake = self.falling_asleep.lock(rt);
        for _ in rt.forever() {
            if self.take() {
                return;
            }
            let Some(left) = left_until(rt, deadline) else {
                // A wake that has just come stays.
                let _ = self.compare_set(ASLEEP, IDLE);
                return;
            };
            if self.begin_sleep() {
                awake = self.changed.wait_timeout(rt, awake, left).0;
            }
        }
        unreachable!()
    }

    #[inline(always)]
    pub(crate) fn wait_up_to<R: Wait + Clock>(&self, rt: &R, deadline: Deadline) -> bool
        ensures has_deadline { result ≡ true → deadline ≢ Deadline.Never }
        ensures ahead { result ≡ false → CanBeAhead deadline }
    {
        if deadline.is_reached(rt) {
            return true;
        }
        match deadline {
            Deadline::At(deadline) => self.wait_until(rt, deadline),
            _ => self.wait(rt),
        }
        false
    }

    // The last checks let others run: the thread that is to wake it may wait for a processor.
    fn spin(&self) -> bool {
        for done in 0..self.checks {
            if self.word.load(Ordering::SeqCst) == FIRED {
                pause(PAUSES_AFTER_WAKE);
                return self.take();
            }
            if self.checks.saturating_sub(done) > YIELDS {
                spin_loop();
            } else {
                yield_now();
            }
        }
        false
    }

    fn take(&self) -> bool {
        self.compare_set(FIRED, IDLE)
    }

    fn begin_sleep(&self) -> bool {
        self.compare_set(IDLE, ASLEEP) || self.word.load(Ordering::SeqCst) == ASLEEP
    }

    fn compare_set(&self, from: u64, to: u64) -> bool {
        self.word
            .compare_exchange(from, to, Ordering::SeqCst, Ordering::SeqCst)
            .is_ok()
    }
}

/// The waker of the task that polled a future, a sink or a stream last. It is empty from a wake on.
#[derive(Drop)]
pub struct TaskSignal {
    // Used only under the channel's lock, so a `Cell` is enough.
    waker: Cell<Option<Waker>>,
}

impl TaskSignal {
    /// Wakes the task, if it wasn't woken since.
    pub fn fire(&self) {
        // A waker wakes its task as it is dropped.
        drop(self.take());
    }

    pub(crate) fn take(&self) -> Option<Waker> {
        self.waker.take()
    }
}

/// What an arm of a selector is woken by: its selector's parker, which all arms share.
#[derive(Drop)]
pub struct ArmSignal<A: Allocator = Global> {
    parker: Arc<Parker, A>,
    /// From 0, in the order in which the arms were added.
    pub arm: usize,
}

impl<A: Allocator + Copy> ArmSignal<A> {
    pub(crate) fn new(parker: &Arc<Parker, A>, arm: usize) -> Option<Self>
        ensures arm { IfSome result (λ signal. signal.arm ≡ arm) }
    {
        let parker = Arc::try_clone(parker).ok()?;
        Some(ArmSignal { parker, arm })
    }
}

impl<A: Allocator> ArmSignal<A> {
    /// Wakes the selector.
    pub fn fire<R: Wait>(&self, rt: &R) {
        self.parker.fire(rt);
    }
}

/// What a parked call leaves with the channel.
#[derive(Drop)]
pub enum Signal<A: Allocator = Global> {
    Parker(Arc<Parker, A>),
    Arm(ArmSignal<A>),
    Task(TaskSignal),
}

impl<A: Allocator> Signal<A> {
    pub(crate) fn of_task(waker: Waker) -> Self {
        Signal::Task(TaskSignal {
            waker: Cell::new(Some(waker)),
        })
    }

    /// Wakes the call.
    pub fn fire<R: Wait>(&self, rt: &R) {
        match self {
            Signal::Parker(parker) => parker.fire(rt),
            Signal::Arm(arm) => arm.fire(rt),
            Signal::Task(task) => task.fire(),
        }
    }
}
