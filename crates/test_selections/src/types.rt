//! A selection over channels of different types, with other threads.
use crate::fixtures::{channel, holds, spawn, start_watchdog};
use flume::error::{RecvError, SelectError};
use flume::{Receiver, Selector, Sender, Waits};
use std::alloc::Global;
use std::process::Abort;
use std::thread::Threads;
use test_support::arms::{HowLong, last_recv};
use test_support::work::{SendOne, Work};

#[derive(Drop)]
enum Either {
    Number(Result<u64, RecvError>),
    Flag(Result<bool, RecvError>),
}

#[derive(Drop)]
struct SendTruth<R: Waits> {
    tx: Sender<bool, R>,
}

impl<R: Waits> Work for SendTruth<R> {
    type Answer = bool;

    fn work(self) -> bool {
        let SendTruth { tx } = self;
        tx.send(true).is_ok()
    }
}

fn receive_either<R: Waits>(
    numbers: &Receiver<u64, R>,
    truths: &Receiver<bool, R>,
) -> Result<Either, SelectError> {
    let first = Selector::new().recv(numbers, Either::Number);
    last_recv(first, truths, Either::Flag, HowLong::Endless)
}

// Whether a selection receives one message, and the other is still there, once.
fn one_of_each<R: Waits>(numbers: &Receiver<u64, R>, truths: &Receiver<bool, R>) -> bool {
    let both = match receive_either(numbers, truths) {
        Ok(Either::Number(number)) => (number, truths.recv()),
        Ok(Either::Flag(truth)) => (numbers.recv(), truth),
        Err(_) => return false,
    };
    both.0 == Ok(7) && both.1 == Ok(true) && numbers.recv().is_err() && truths.recv().is_err()
}

fn two_send<R>(rt: R, alloc: Global)
where
    R: Waits + Threads + Abort + Send + Sync + 'static,
{
    let (tx, numbers) = channel(rt, alloc, None);
    let one = spawn(&rt, SendOne { tx, message: 7 });
    let (tx, truths) = channel(rt, alloc, None);
    let other = spawn(&rt, SendTruth { tx });
    holds(&rt, one_of_each(&numbers, &truths));
    holds(&rt, one.join(&rt) && other.join(&rt));
}

#[test]
fn of_the_messages_of_two_threads_one_is_taken_and_the_other_stays(rt: HostRuntime) {
    let watchdog = start_watchdog(rt, rt.alloc());
    for _ in 0..100 {
        two_send(rt, rt.alloc());
    }
    watchdog.end(&rt);
}
