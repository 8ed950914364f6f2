//! A clock that counts its readings, and can be stopped. A call with a deadline reads its clock
//! once it has parked, and before it sleeps: so a test knows when it waits.
use flume::Waits;
use std::alloc::{Alloc, AllocGlobal, Global};
use std::random::RandomSource;
use std::sync::Wait;
use std::sync::atomic::{AtomicBool, AtomicU64, Ordering};
use std::time::{Clock, Duration};
use std::{io, thread};

/// How often a clock was read, and whether it runs.
#[derive(Drop)]
pub struct ClockState {
    readings: AtomicU64,
    first_stopped: AtomicU64,
    is_past_deadlines: AtomicBool,
}

impl ClockState {
    /// A clock that runs, and wasn't read.
    pub fn new() -> ClockState {
        ClockState {
            readings: AtomicU64::new(0),
            first_stopped: AtomicU64::new(u64::MAX),
            is_past_deadlines: AtomicBool::new(false),
        }
    }

    /// How often the clock was read.
    pub fn readings(&self) -> u64 {
        self.readings.load(Ordering::SeqCst)
    }

    /// Waits until the clock was read this often.
    pub fn wait_for_readings<R: Wait>(&self, rt: &R, times: u64) {
        for _ in rt.forever() {
            if times <= self.readings() {
                return;
            }
            thread::yield_now();
        }
        unreachable!()
    }

    /// Stops the clock: from this reading on, counted from 1, each waits until it runs again.
    pub fn stop_from(&self, reading: u64) {
        self.first_stopped.store(reading, Ordering::SeqCst);
    }

    /// Lets the clock run, past all deadlines of a script.
    pub fn pass_deadlines(&self) {
        self.is_past_deadlines.store(true, Ordering::SeqCst);
        self.stop_from(u64::MAX);
    }

    fn read<R: Wait>(&self, rt: &R) {
        let number = self.readings.fetch_add(1, Ordering::SeqCst);
        for _ in rt.forever() {
            if number.saturating_add(1) < self.first_stopped.load(Ordering::SeqCst) {
                return;
            }
            thread::yield_now();
        }
        unreachable!()
    }
}

/// A runtime with such a clock.
#[derive(Clone, Copy)]
pub struct StoppableClock<'a, R> {
    pub rt: R,
    pub state: &'a ClockState,
}

impl<R: Wait> Wait for StoppableClock<'_, R> {}

impl<R: Waits> Clock for StoppableClock<'_, R> {
    fn monotonic(&self) -> io::Result<Duration> {
        self.state.read(&self.rt);
        let now = self.rt.monotonic()?;
        if self.state.is_past_deadlines.load(Ordering::SeqCst) {
            return Ok(now.saturating_add(Duration::from_secs(7200)));
        }
        Ok(now)
    }

    fn since_1970(&self) -> io::Result<Duration> {
        self.rt.since_1970()
    }
}

impl<R: RandomSource> RandomSource for StoppableClock<'_, R> {
    fn fill_bytes(&self, bytes: &mut [u8]) -> io::Result<()> {
        self.rt.fill_bytes(bytes)
    }
}

impl<R: AllocGlobal> Alloc for StoppableClock<'_, R> {
    type A = Global;

    fn alloc(&self) -> Global {
        self.rt.alloc()
    }
}
