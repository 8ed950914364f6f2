//! The shapes that use no channel: what a lock alone, or one cache line alone, takes a message.
use crate::bench::Bench;
use crate::fault::Fault;
use crate::threads::Work;
use flume::{Runtime, Waits};
use std::hint::spin_loop;
use std::random::RandomSource;
use std::sync::atomic::{AtomicU64, Ordering};
use std::sync::{Arc, Mutex, MutexGuard, Wait};
use std::thread::yield_now;

const EMPTY: u64 = 0;

// After so many looks a thread lets others run: the other one may wait for a processor.
const SPINS: u32 = 100;

impl<R: Waits> Bench<R> {
    /// A lock is taken and let go twice a message: a send does so once, and a receive once.
    pub(crate) fn floor_lock(&self) -> usize {
        let place = Mutex::new(0usize);
        let mut sum = 0usize;
        for message in 0..self.messages {
            put(&self.rt, &place, message);
            sum = sum.wrapping_add(take(&self.rt, &place));
        }
        sum
    }
}

#[inline(always)]
fn put<R: Wait>(rt: &R, place: &Mutex<usize>, message: usize) {
    let mut guard = lock(rt, place);
    *guard = message;
}

#[inline(always)]
fn take<R: Wait>(rt: &R, place: &Mutex<usize>) -> usize {
    let guard = lock(rt, place);
    *guard
}

#[inline(always)]
fn lock<'a, R: Wait>(rt: &R, place: &'a Mutex<usize>) -> MutexGuard<'a, usize> {
    match place.try_lock() {
        Some(guard) => guard,
        None => place.lock(rt),
    }
}

impl<R: Runtime + RandomSource> Bench<R> {
    /// A second thread writes each message into a word once that is empty, and this one empties it.
    pub(crate) fn floor_line(&self) -> Result<usize, Fault> {
        let (line, other) = self.open_line()?;
        let mut threads = Vec::new(self.alloc);
        self.start(&mut threads, Work::Fills(other), self.messages)?;
        let sum = empty_each(&self.rt, &line, self.messages);
        Ok(sum.wrapping_add(self.join_all(threads)))
    }

    fn open_line(&self) -> Result<(Arc<AtomicU64>, Arc<AtomicU64>), Fault> {
        let Ok(line) = Arc::new(self.alloc, AtomicU64::new(EMPTY)) else {
            return Err(Fault::NoMemory);
        };
        match Arc::try_clone(&line) {
            Ok(other) => Ok((line, other)),
            Err(_) => Err(Fault::NoMemory),
        }
    }
}

/// Of each message the number after it is written, so that none looks empty.
pub(crate) fn fill_each<R: Wait>(rt: &R, line: &AtomicU64, messages: usize) {
    for message in 0..messages {
        let _ = wait_until(rt, line, false);
        line.store((message as u64).saturating_add(1), Ordering::SeqCst);
    }
}

fn empty_each<R: Wait>(rt: &R, line: &AtomicU64, messages: usize) -> usize {
    let mut sum = 0usize;
    for _ in 0..messages {
        let word = wait_until(rt, line, true);
        line.store(EMPTY, Ordering::SeqCst);
        sum = sum.wrapping_add((word as usize).wrapping_sub(1));
    }
    sum
}

#[inline(always)]
fn wait_until<R: Wait>(rt: &R, line: &AtomicU64, full: bool) -> u64 {
    let mut spins = 0u32;
    for _ in rt.forever() {
        let word = line.load(Ordering::SeqCst);
        if (word != EMPTY) == full {
            return word;
        }
        if spins < SPINS {
            spins = spins.saturating_add(1);
            spin_loop();
        } else {
            yield_now();
        }
    }
    unreachable!()
}
