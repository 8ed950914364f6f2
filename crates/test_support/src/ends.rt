//! Channels of any capacity, and calls that are tried until the other side is there.
use flume::error::{NoMemory, TryRecvError, TrySendError};
use flume::{Receiver, Sender, Waits, bounded, unbounded};
use std::alloc::Allocator;
use std::thread;
use std::time::Duration;

/// Longer than any test waits.
pub fn one_hour() -> Duration {
    Duration::from_secs(3600)
}

/// The ends of a new channel of this capacity: `None` is unbounded.
pub fn open<T: Drop, R: Waits, A: Allocator + Copy>(
    rt: R,
    alloc: A,
    capacity: Option<usize>,
) -> Result<(Sender<T, R, A>, Receiver<T, R, A>), NoMemory> {
    match capacity {
        Some(capacity) => bounded(rt, alloc, 1, capacity),
        None => unbounded(rt, alloc, 1),
    }
}

/// Tries to send until the channel isn't full; at capacity 0, until a receive waits.
pub fn retry_send<R: Waits, A: Allocator + Copy>(
    rt: &R,
    tx: &Sender<u64, R, A>,
    message: u64,
) -> Result<(), TrySendError<u64>> {
    for _ in rt.forever() {
        match tx.try_send(message) {
            Err(TrySendError::Full(_)) => thread::yield_now(),
            answer => return answer,
        }
    }
    unreachable!()
}

/// Tries to receive until the channel isn't empty, or is closed.
pub fn retry_recv<R: Waits, A: Allocator + Copy>(
    rt: &R,
    rx: &Receiver<u64, R, A>,
) -> Result<u64, TryRecvError> {
    for _ in rt.forever() {
        match rx.try_recv() {
            Err(TryRecvError::Empty) => thread::yield_now(),
            answer => return answer,
        }
    }
    unreachable!()
}
