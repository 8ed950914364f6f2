//! A capacity that keeps changing.
use crate::work::Work;
use flume::{Receiver, Waits};
use std::alloc::Allocator;
use std::thread;

/// Sets capacities in turn, until all senders have been dropped; answers how often.
pub fn keep_changing_capacity<T: Drop, R: Waits, A: Allocator + Copy>(
    rt: &R,
    rx: &Receiver<T, R, A>,
) -> u64 {
    let mut times = 0u64;
    for _ in rt.forever() {
        let capacity = match times % 4 {
            0 => 0,
            1 => 3,
            2 => 1,
            _ => 8,
        };
        if rx.set_capacity(capacity).is_err() {
            return times;
        }
        times = times.saturating_add(1);
        thread::yield_now();
    }
    unreachable!()
}

/// The same, as the work of a thread.
#[derive(Drop)]
pub struct KeepChangingCapacity<R: Waits> {
    pub rt: R,
    pub rx: Receiver<u64, R>,
}

impl<R: Waits> Work for KeepChangingCapacity<R> {
    type Answer = u64;

    fn work(self) -> u64 {
        let KeepChangingCapacity { rt, rx } = self;
        keep_changing_capacity(&rt, &rx)
    }
}

/// Waits until the capacity isn't this one any more.
pub fn wait_for_capacity_change<T: Drop, R: Waits, A: Allocator + Copy>(
    rt: &R,
    rx: &Receiver<T, R, A>,
    capacity: usize,
) {
    for _ in rt.forever() {
        if rx.capacity() != Some(capacity) {
            return;
        }
        thread::yield_now();
    }
    unreachable!()
}
