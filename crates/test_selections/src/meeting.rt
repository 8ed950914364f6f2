//! Two selectors against each other, in two threads.
use crate::fixtures::{Ends, channel, holds, is, spawn, start_watchdog, unwrap};
use flume::error::SelectError;
use flume::{Receiver, Sender, Waits};
use std::alloc::{AllocError, Global};
use std::process::Abort;
use std::thread::Threads;
use test_support::arms::HowLong;
use test_support::capacities::{KeepChangingCapacity, wait_for_capacity_change};
use test_support::selections::{Winner, receive_or_send, send_or_receive};
use test_support::work::Work;

const ROUNDS: u64 = 10_000;

// Sends or receives; in even rounds the send arm comes first.
fn select<R: Waits>(
    tx: &Sender<u64, R>,
    rx: &Receiver<u64, R>,
    round: u64,
) -> Result<Winner, SelectError> {
    if round % 2 == 0 {
        send_or_receive(tx, round, rx, HowLong::Endless)
    } else {
        receive_or_send(rx, tx, round, HowLong::Endless)
    }
}

#[derive(Drop)]
struct Log<R: Waits> {
    rounds: u64,
    sent: Vec<u64>,
    got: Vec<u64>,
    rx: Receiver<u64, R>,
}

impl<R: Waits> Log<R> {
    fn play(&mut self, tx: &Sender<u64, R>) -> Result<(), AllocError> {
        for round in 0..ROUNDS {
            match select(tx, &self.rx, round) {
                Ok(Winner::Sent(Ok(()))) => self.sent.push(round)?,
                Ok(Winner::First(Ok(number))) => self.got.push(number)?,
                Ok(_) => return Ok(()),
                Err(_) => return Err(AllocError),
            }
            self.rounds = self.rounds.saturating_add(1);
        }
        Ok(())
    }

    fn take_the_rest(&mut self) -> Result<(), AllocError> {
        for number in self.rx.try_iter() {
            self.got.push(number)?;
        }
        Ok(())
    }
}

#[derive(Drop)]
struct Play<R: Waits> {
    alloc: Global,
    tx: Sender<u64, R>,
    rx: Receiver<u64, R>,
}

impl<R: Waits> Work for Play<R> {
    type Answer = Result<Log<R>, AllocError>;

    fn work(self) -> Result<Log<R>, AllocError> {
        let Play { alloc, tx, rx } = self;
        let (sent, got) = (Vec::new(alloc), Vec::new(alloc));
        let mut log = Log {
            rounds: 0,
            sent,
            got,
            rx,
        };
        log.play(&tx)?;
        Ok(log)
    }
}

fn rises(numbers: &[u64]) -> bool {
    let mut least = 0;
    for &number in numbers {
        if number < least {
            return false;
        }
        least = number.saturating_add(1);
    }
    true
}

// Whether each number of the one is in the other, if both rise.
fn are_all_in(some: &[u64], numbers: &[u64]) -> bool {
    let mut rest = numbers.iter();
    for wanted in some {
        if !rest.by_ref().any(|number| number == wanted) {
            return false;
        }
    }
    true
}

// Messages came once and in order, and what an arm sent came.
fn compare<R: Waits>(rt: &impl Abort, one: &Log<R>, other: &Log<R>) {
    holds(rt, rises(&one.got) && rises(&other.got));
    holds(rt, are_all_in(&one.sent, &other.got));
    holds(rt, are_all_in(&other.sent, &one.got));
    is(rt, one.rounds.max(other.rounds), ROUNDS);
}

fn meet<R>(rt: R, alloc: Global, first: Ends<u64, R, Global>, second: Ends<u64, R, Global>)
where
    R: Waits + Threads + Abort + Send + Sync + 'static,
{
    let (to_other, from_one) = first;
    let (to_one, from_other) = second;
    let (tx, rx) = (to_other, from_other);
    let one = spawn(&rt, Play { alloc, tx, rx });
    let (tx, rx) = (to_one, from_one);
    let other = spawn(&rt, Play { alloc, tx, rx });
    let (mut one, mut other) = (unwrap(&rt, one.join(&rt)), unwrap(&rt, other.join(&rt)));
    unwrap(&rt, one.take_the_rest());
    unwrap(&rt, other.take_the_rest());
    compare(&rt, &one, &other);
}

#[test]
fn two_selectors_that_meet_lose_and_double_no_message(rt: HostRuntime) {
    let first = channel(rt, rt.alloc(), Some(0));
    let second = channel(rt, rt.alloc(), Some(0));
    let watchdog = start_watchdog(rt, rt.alloc());
    meet(rt, rt.alloc(), first, second);
    watchdog.end(&rt);
}

#[test]
fn two_selectors_lose_and_double_no_message_while_a_thread_changes_a_capacity(rt: HostRuntime) {
    let first = channel(rt, rt.alloc(), Some(4));
    let second = channel(rt, rt.alloc(), Some(0));
    let rx = unwrap(&rt, first.1.clone());
    let watchdog = start_watchdog(rt, rt.alloc());
    let changing = spawn(&rt, KeepChangingCapacity { rt, rx });
    wait_for_capacity_change(&rt, &first.1, 4);
    meet(rt, rt.alloc(), first, second);
    holds(&rt, changing.join(&rt) > 0);
    watchdog.end(&rt);
}
