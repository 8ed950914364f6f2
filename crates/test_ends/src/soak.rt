//! Eight threads on one channel whose allocator refuses one growth in a hundred: their calls try,
//! block, time out, and are polled and dropped, with ends that are cloned, upgraded and dropped.
use crate::fixtures::{Heap, holds, start_watchdog, unwrap};
use crate::runtime::TestRuntime;
use flume::error::{RecvError, RecvTimeoutError, TryRecvError};
use flume::{Receiver, Sender, Waits};
use futures::task::Poll;
use futures::test::MockTask;
use std::alloc::{AllocGlobal, Allocator, Global};
use std::process::Abort;
use std::random::RandomSource;
use std::sync::Mutex;
use std::thread;
use std::thread::Threads;
use std::time::Duration;
use test_support::counting::Counting;
use test_support::ends::open;
use test_support::watchdog::Progress;

// How many messages each of four threads sends until they are taken, and as many by futures.
const EACH: u64 = 1_000;

// After how many messages a thread replaces its end, or sets the capacity.
const RENEWAL: u64 = 50;

const ALL: usize = 8 * EACH as usize;

const FIRSTS: &[u64] = &[0, 2 * EACH, 4 * EACH, 6 * EACH];

fn short() -> Duration {
    Duration::from_millis(1)
}

fn send_once<R: Waits, A: Allocator + Copy>(tx: &Sender<u64, R, A>, message: u64) -> Option<u64> {
    match message % 3 {
        0 => tx.send(message).err().map(|error| error.into_inner()),
        1 => tx.try_send(message).err().map(|error| error.into_inner()),
        _ => match tx.send_timeout(message, short()) {
            Ok(()) => None,
            Err(error) => Some(error.into_inner()),
        },
    }
}

fn send_until_taken<R: Waits, A: Allocator + Copy>(
    rt: &R,
    tx: &Sender<u64, R, A>,
    message: u64,
) -> bool {
    for _ in rt.forever() {
        match send_once(tx, message) {
            None => return true,
            Some(back) if back != message => return false,
            Some(_) => thread::yield_now(),
        }
    }
    unreachable!()
}

#[derive(Clone, Copy, PartialEq, Drop)]
enum Sent {
    Unknown,
    Taken,
    CameBack,
}

fn poll_send_once<R: Waits, A: Allocator + Copy>(
    task: &MockTask,
    tx: &Sender<u64, R, A>,
    message: u64,
) -> Sent {
    let mut send = tx.send_async(message);
    match task.poll(&mut send) {
        Poll::Ready(Ok(())) => Sent::Taken,
        Poll::Ready(Err(_)) => Sent::CameBack,
        Poll::Pending => Sent::Unknown,
    }
}

// The sender, a clone, or an upgrade of a weak sender. Sets the capacity, if that changes.
fn renew<R: Waits, A: Allocator + Copy>(
    tx: Sender<u64, R, A>,
    number: u64,
    capacities: bool,
) -> Option<Sender<u64, R, A>> {
    if number % RENEWAL != 0 {
        return Some(tx);
    }
    if capacities && tx.set_capacity((number / RENEWAL % 5) as usize).is_err() {
        return None;
    }
    if number % (2 * RENEWAL) == 0 {
        return tx.clone().ok();
    }
    tx.downgrade().ok()?.upgrade().ok()?
}

// Records what became of each message. One that it can't send, or that came back as another, stays
// unknown, and fails the test.
fn send_all<R: TestRuntime, A: Allocator + Copy>(
    rt: R,
    mut tx: Sender<u64, R, A>,
    (first, capacities): (u64, bool),
    tally: &Tally<'_>,
) {
    let Ok(task) = MockTask::new(&rt) else {
        return;
    };
    for number in 0..EACH {
        let Some(other) = renew(tx, number, capacities) else {
            return;
        };
        tx = other;
        let message = first.saturating_add(number.saturating_mul(2));
        if !send_until_taken(&rt, &tx, message) {
            return;
        }
        record(&rt, tally, message, Sent::Taken);
        let other = message.saturating_add(1);
        record(&rt, tally, other, poll_send_once(&task, &tx, other));
    }
}

#[derive(Clone, Copy, Drop)]
enum Received {
    Message(u64),
    Nothing,
    Closed,
}

fn poll_receive_once<R: Waits, A: Allocator + Copy>(
    task: &MockTask,
    rx: &Receiver<u64, R, A>,
) -> Received {
    let mut receive = rx.recv_async();
    match task.poll(&mut receive) {
        Poll::Ready(Ok(message)) => Received::Message(message),
        Poll::Ready(Err(RecvError::Disconnected)) => Received::Closed,
        Poll::Ready(Err(RecvError::NoMemory)) | Poll::Pending => Received::Nothing,
    }
}

fn receive_once<R: Waits, A: Allocator + Copy>(
    task: &MockTask,
    rx: &Receiver<u64, R, A>,
    number: u64,
) -> Received {
    match number % 4 {
        0 => match rx.try_recv() {
            Ok(message) => Received::Message(message),
            Err(TryRecvError::Disconnected) => Received::Closed,
            Err(_) => Received::Nothing,
        },
        1 => match rx.recv_timeout(short()) {
            Ok(message) => Received::Message(message),
            Err(RecvTimeoutError::Disconnected) => Received::Closed,
            Err(_) => Received::Nothing,
        },
        2 => poll_receive_once(task, rx),
        _ => match rx.recv() {
            Ok(message) => Received::Message(message),
            Err(RecvError::Disconnected) => Received::Closed,
            Err(RecvError::NoMemory) => Received::Nothing,
        },
    }
}

// How often each message was received, and what became of its send.
#[derive(Drop)]
struct Tally<'w> {
    counts: Mutex<Vec<u32>>,
    sent: Mutex<Vec<Sent>>,
    progress: &'w Progress,
}

fn record<R: Waits>(rt: &R, tally: &Tally<'_>, message: u64, outcome: Sent) {
    if let Some(sent) = tally.sent.lock(rt).get_mut(message as usize) {
        *sent = outcome;
    }
}

fn count<R: Waits>(rt: &R, tally: &Tally<'_>, message: u64) {
    tally.progress.report();
    let mut counts = tally.counts.lock(rt);
    if let Some(count) = counts.get_mut(message as usize) {
        *count = count.saturating_add(1);
    }
}

fn drain<R: Waits, A: Allocator + Copy>(rt: &R, rx: &Receiver<u64, R, A>, tally: &Tally<'_>) {
    if let Ok(messages) = rx.drain() {
        for message in messages {
            count(rt, tally, message);
        }
    }
}

fn receive_all<R: TestRuntime, A: Allocator + Copy>(
    rt: R,
    rx: Receiver<u64, R, A>,
    tally: &Tally<'_>,
) {
    let Ok(task) = MockTask::new(&rt) else {
        return;
    };
    let mut number = 0u64;
    for _ in rt.forever() {
        number = number.wrapping_add(1);
        if number % RENEWAL == 0 {
            drain(&rt, &rx, tally);
        }
        match receive_once(&task, &rx, number) {
            Received::Message(message) => count(&rt, tally, message),
            Received::Nothing => thread::yield_now(),
            Received::Closed => return,
        }
    }
}

fn run_threads<R: TestRuntime, A: Allocator + Copy + Send + Sync>(
    rt: R,
    (tx, rx): (Sender<u64, R, A>, Receiver<u64, R, A>),
    capacities: bool,
    tally: &Tally<'_>,
) -> bool {
    thread::scope(thread::scope_env(), &rt, move |scope| {
        for &first in FIRSTS {
            let (own, other): (Result<_, _>, Result<_, _>) = (tx.clone(), rx.clone());
            let (Ok(own), Ok(other)) = (own, other) else {
                return false;
            };
            let sends = move || send_all(rt, own, (first, capacities), tally);
            let receives = move || receive_all(rt, other, tally);
            if scope.spawn(sends).is_err() || scope.spawn(receives).is_err() {
                return false;
            }
        }
        true
    })
}

// Whether each message that was taken was received once, each that came back never, and each other
// at most once. Those of even numbers were all taken.
fn are_right(counts: &[u32], sent: &[Sent]) -> bool {
    let mut sent = sent.iter();
    for (at, &count) in counts.iter().enumerate() {
        let is_right = match sent.next() {
            Some(Sent::Taken) => count == 1,
            Some(Sent::CameBack) => count == 0 && at % 2 == 1,
            _ => count <= 1 && at % 2 == 1,
        };
        if !is_right {
            return false;
        }
    }
    true
}

// How many growths were refused, at a capacity that stays, or changes.
fn soak<R: TestRuntime>(
    rt: R,
    alloc: Global,
    progress: &Progress,
    (capacity, capacities): (Option<usize>, bool),
) -> u64 {
    let heap = Counting::new(alloc);
    let counts = Mutex::new(unwrap(&rt, vec![in alloc; 0u32; ALL]));
    let sent = Mutex::new(unwrap(&rt, vec![in alloc; Sent::Unknown; ALL]));
    let tally = Tally {
        counts,
        sent,
        progress,
    };
    let ends = unwrap(&rt, open(rt, &heap, capacity));
    heap.refuse_one_in(100);
    let is_run = run_threads(rt, ends, capacities, &tally);
    holds(&rt, "not all threads ran", is_run);
    let Tally { counts, sent, .. } = tally;
    let (counts, sent) = (counts.into_inner(), sent.into_inner());
    let are_right = are_right(&counts, &sent);
    holds(
        &rt,
        "a message was lost, or received against its answer",
        are_right,
    );
    holds(&rt, "blocks are left", heap.live() == 0);
    heap.refusals()
}

#[test]
fn no_message_is_lost_if_one_growth_in_a_hundred_is_refused(rt: HostRuntime) {
    let watchdog = start_watchdog(rt, rt.alloc());
    let mut refused = soak(rt, rt.alloc(), watchdog.progress(), (Some(3), true));
    for capacity in [None, Some(0), Some(1), Some(7), Some(64)] {
        let more = soak(rt, rt.alloc(), watchdog.progress(), (capacity, false));
        refused = refused.saturating_add(more);
    }
    holds(&rt, "no growth was refused", refused > 0);
    watchdog.end(&rt);
}
