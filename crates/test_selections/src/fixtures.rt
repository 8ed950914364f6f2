//! What can't be had aborts a test here: a `?` in a test costs the prover a second.
use flume::{Receiver, Sender, Waits};
use std::alloc::{Allocator, Global};
use std::fmt::Debug;
use std::process::Abort;
use std::thread;
use std::thread::{JoinHandle, Threads};
use std::time::{Clock, Instant};
use test_support::ends::{one_hour, open};
use test_support::watchdog::{Watchdog, start_watchdog_with};
use test_support::work::Work;

pub(crate) fn is<T: Debug + PartialEq + Drop>(rt: &impl Abort, answer: T, wanted: T) {
    assert_eq!(rt; answer, wanted);
}

pub(crate) fn holds(rt: &impl Abort, answer: bool) {
    assert!(rt; answer);
}

pub(crate) fn unwrap<T, E: Debug + Drop>(rt: &impl Abort, answer: Result<T, E>) -> T {
    answer.expect(rt, "there is memory")
}

pub(crate) type Ends<T, R: Waits, A: Allocator + Copy> = (Sender<T, R, A>, Receiver<T, R, A>);

pub(crate) fn channel<T: Drop, R: Waits + Abort, A: Allocator + Copy>(
    rt: R,
    alloc: A,
    capacity: Option<usize>,
) -> Ends<T, R, A> {
    unwrap(&rt, open(rt, alloc, capacity))
}

pub(crate) fn spawn<R: Threads + Abort, W: Work + Send + Drop + 'static>(
    rt: &R,
    work: W,
) -> JoinHandle<W::Answer>
where
    W::Answer: Send + Drop + 'static,
{
    thread::spawn(rt, move || work.work()).expect(rt, "a thread can be started")
}

pub(crate) fn far_deadline<R: Clock + Abort>(rt: &R) -> Instant {
    let now = Instant::now(rt).expect(rt, "the clock can be read");
    now.checked_add(one_hour()).expect(rt, "an hour has a sum")
}

#[derive(Drop)]
struct Stuck<R: Waits + Abort>(R);

impl<R: Waits + Abort> Work for Stuck<R> {
    type Answer = ();

    fn work(self) {
        panic!(self.0; "a wake is lost: nothing happened for too long")
    }
}

pub(crate) fn start_watchdog<R: Waits + Threads + Abort + Send + Sync + 'static>(
    rt: R,
    alloc: Global,
) -> Watchdog {
    match start_watchdog_with(rt, alloc, Stuck(rt)) {
        Ok(watchdog) => watchdog,
        Err(_) => panic!(rt; "a watchdog can be started"),
    }
}
