//! The numbers that all recorders of a recording share.

use std::sync::atomic::{AtomicU64, Ordering};

/// How many stamps were given, threads numbered, and recorders made. `marks` is 0, but while a
/// recorder shows whose it is.
#[derive(Drop)]
pub(crate) struct Counters {
    stamps: AtomicU64,
    threads: AtomicU64,
    recorders: AtomicU64,
    marks: AtomicU64,
}

impl Counters {
    pub(crate) fn new() -> Self {
        Counters {
            stamps: AtomicU64::new(0),
            threads: AtomicU64::new(0),
            recorders: AtomicU64::new(0),
            marks: AtomicU64::new(0),
        }
    }

    pub(crate) fn next_stamp(&self) -> u64 {
        self.stamps.fetch_add(1, Ordering::SeqCst)
    }

    // Each future counts as a thread.
    pub(crate) fn next_thread(&self) -> usize {
        self.threads.fetch_add(1, Ordering::SeqCst) as usize
    }

    pub(crate) fn count_recorder(&self) {
        self.recorders.fetch_add(1, Ordering::SeqCst);
    }

    pub(crate) fn recorder_count(&self) -> u64 {
        self.recorders.load(Ordering::SeqCst)
    }

    // A mark that is set through the other handle is seen here, since no address can be compared.
    pub(crate) fn is_same(&self, other: &Counters) -> bool {
        other.marks.fetch_add(1, Ordering::SeqCst);
        let same = self.marks.load(Ordering::SeqCst) > 0;
        other.marks.fetch_sub(1, Ordering::SeqCst);
        same
    }
}
