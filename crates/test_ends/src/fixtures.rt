//! What can't be had aborts a test here: a `?` in a test costs the prover a second.
use crate::runtime::TestRuntime;
use flume::{Receiver, Sender, Waits};
use futures::Future;
use futures::executor::block_on;
use std::alloc::{Allocator, Global};
use std::fmt::Debug;
use std::process::Abort;
use std::thread;
use std::thread::{JoinHandle, Threads};
use std::time::{Clock, Instant};
use test_support::counting::Counting;
use test_support::ends::{one_hour, open};
use test_support::watchdog::{Watchdog, start_watchdog_with};
use test_support::work::Work;

pub(crate) type Heap<'h> = &'h Counting<Global>;

pub(crate) fn is<T: Debug + PartialEq + Drop>(rt: &impl Abort, answer: T, wanted: T) {
    assert_eq!(rt; answer, wanted);
}

pub(crate) fn holds(rt: &impl Abort, fault: &str, truth: bool) {
    assert!(rt; truth, "{fault}");
}

pub(crate) fn unwrap<T, E: Debug + Drop>(rt: &impl Abort, answer: Result<T, E>) -> T {
    answer.expect(rt, "the system gives what is asked for")
}

pub(crate) fn channel<T: Drop, R: Waits, A: Allocator + Copy>(
    host: &impl Abort,
    (rt, alloc): (R, A),
    capacity: Option<usize>,
) -> (Sender<T, R, A>, Receiver<T, R, A>) {
    unwrap(host, open(rt, alloc, capacity))
}

pub(crate) fn spawn<R: Threads + Abort, W: Work + Send + Drop + 'static>(
    rt: &R,
    work: W,
) -> JoinHandle<W::Answer>
where
    W::Answer: Send + Drop + 'static,
{
    thread::spawn(rt, move || work.work()).expect(rt, "a thread can be started")
}

pub(crate) fn run<R: TestRuntime, F: Future>(rt: &R, future: F) -> F::Output
    requires { F.can_poll future }
{
    unwrap(rt, block_on(rt, future))
}

#[derive(Drop)]
struct Stuck<R: Waits + Abort>(R);

impl<R: Waits + Abort> Work for Stuck<R> {
    type Answer = ();

    fn work(self) {
        panic!(self.0; "a wake is lost: nothing happened for too long")
    }
}

pub(crate) fn start_watchdog<R: Waits + Threads + Abort + Send + Sync + 'static>(
    rt: R,
    alloc: Global,
) -> Watchdog {
    match start_watchdog_with(rt, alloc, Stuck(rt)) {
        Ok(watchdog) => watchdog,
        Err(_) => panic!(rt; "a watchdog can be started"),
    }
}

pub(crate) fn far_deadline<R: Clock + Abort>(rt: &R) -> Instant {
    let now = Instant::now(rt).expect(rt, "the clock can be read");
    now.checked_add(one_hour()).expect(rt, "an hour has a sum")
}
