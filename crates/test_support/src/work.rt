//! The work of a thread as a value: a closure costs the prover several times as much in each test.
use flume::{Sender, Waits};
use std::test::Fail;
use std::thread;
use std::thread::{JoinHandle, Threads};

/// What a thread does.
pub trait Work {
    type Answer;

    fn work(self) -> Self::Answer;
}

/// Starts a thread that does this work.
pub fn spawn_work<R: Threads, W: Work + Send + Drop + 'static>(
    rt: &R,
    work: W,
) -> Result<JoinHandle<W::Answer>, Fail>
where
    W::Answer: Send + Drop + 'static,
{
    Ok(thread::spawn(rt, move || work.work())?)
}

/// Sends a message, and answers whether it was taken.
#[derive(Drop)]
pub struct SendOne<R: Waits> {
    pub tx: Sender<u64, R>,
    pub message: u64,
}

impl<R: Waits> Work for SendOne<R> {
    type Answer = bool;

    fn work(self) -> bool {
        let SendOne { tx, message } = self;
        tx.send(message).is_ok()
    }
}
