//! What runtimes can do, and the work of a sending thread.
use flume::{Sender, Waits};
use std::alloc::AllocGlobal;
use std::process::Abort;
use std::random::RandomSource;
use std::thread::Threads;
use test_support::work::Work;

pub(crate) trait TestRuntime: Waits
    + RandomSource
    + AllocGlobal
    + Threads
    + Abort
    + Send
    + Sync
    + 'static {}

impl<R: Waits + RandomSource + AllocGlobal + Threads + Abort + Send + Sync + 'static> TestRuntime
    for R {}

/// Sends 0, 1, 2 and so on, this many.
#[derive(Drop)]
pub(crate) struct SendUpTo<R: Waits> {
    pub(crate) tx: Sender<u64, R>,
    pub(crate) end: u64,
}

impl<R: Waits> Work for SendUpTo<R> {
    type Answer = ();

    fn work(self) {
        let SendUpTo { tx, end } = self;
        for message in 0..end {
            let _ = tx.send(message);
        }
    }
}
