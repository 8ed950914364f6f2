//! A clock that can't be read, and one that each reading advances.
use std::io;
use std::io::ErrorKind;
use std::sync::Wait;
use std::sync::atomic::{AtomicU64, Ordering};
use std::time::{Clock, Duration};

/// A runtime whose clock can't be read.
#[derive(Clone, Copy)]
pub struct UnreadableClock<R> {
    pub rt: R,
}

impl<R: Wait> Wait for UnreadableClock<R> {}

impl<R> Clock for UnreadableClock<R> {
    fn monotonic(&self) -> io::Result<Duration> {
        Err(io::Error::from(ErrorKind::Unsupported))
    }

    fn since_1970(&self) -> io::Result<Duration> {
        self.monotonic()
    }
}

/// A runtime whose clock reads 0 first, and then this many microseconds more each time.
#[derive(Clone, Copy)]
pub struct TickingClock<'a, R> {
    pub rt: R,
    pub readings: &'a AtomicU64,
    pub micros: u64,
}

impl<R: Wait> Wait for TickingClock<'_, R> {}

impl<R> Clock for TickingClock<'_, R> {
    fn monotonic(&self) -> io::Result<Duration> {
        let earlier = self.readings.fetch_add(1, Ordering::SeqCst);
        Ok(Duration::from_micros(earlier.saturating_mul(self.micros)))
    }

    fn since_1970(&self) -> io::Result<Duration> {
        self.monotonic()
    }
}
