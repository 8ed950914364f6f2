//! A task whose message another receiver takes first: it finds nothing, waits again, and is woken
//! by the next message.
use crate::fixtures::{channel, is, spawn, start_watchdog, unwrap};
use crate::runtime::TestRuntime;
use flume::polled::RecvStream;
use flume::{Receiver, Sender};
use futures::executor::block_on;
use futures::task::{Context, Poll};
use futures::{Future, Stream};
use std::alloc::Global;
use std::sync::atomic::{AtomicU64, Ordering};
use std::sync::{Arc, Wait};
use std::thread;
use test_support::work::Work;

const ROUNDS: u64 = 500;

// How often the task has begun to wait, and how many messages it had sent back by the last time.
#[derive(Drop)]
struct TaskReport {
    waits: AtomicU64,
    sent_back: AtomicU64,
}

// Sends back each message, until the channel is closed.
#[derive(Drop)]
struct EchoTask<'a, R: TestRuntime> {
    stream: RecvStream<'a, u64, R>,
    back: Sender<u64, R>,
    sent_back: u64,
    report: Arc<TaskReport>,
}

impl<R: TestRuntime> Future for EchoTask<'_, R> {
    type Output = ();

    fn poll(&mut self, cx: &mut Context<'_>) -> Poll<()> {
        match self.stream.poll_next(cx) {
            Poll::Ready(Some(message)) => {
                self.sent_back = self.sent_back.wrapping_add(1);
                let _ = self.back.try_send(message);
                cx.yield_now()
            }
            Poll::Ready(None) => Poll::Ready(()),
            Poll::Pending => {
                self.report.waits.fetch_add(1, Ordering::SeqCst);
                self.report
                    .sent_back
                    .store(self.sent_back, Ordering::SeqCst);
                Poll::Pending
            }
        }
    }
}

#[derive(Drop)]
struct EchoThread<R: TestRuntime> {
    rt: R,
    rx: Receiver<u64, R>,
    back: Sender<u64, R>,
    report: Arc<TaskReport>,
}

impl<R: TestRuntime> Work for EchoThread<R> {
    type Answer = bool;

    fn work(self) -> bool {
        let EchoThread {
            rt,
            rx,
            back,
            report,
        } = self;
        let (stream, sent_back) = (rx.stream(), 0);
        let task = EchoTask {
            stream,
            back,
            sent_back,
            report,
        };
        block_on(&rt, task).is_ok()
    }
}

fn wait_for<R: Wait>(rt: &R, number: &AtomicU64, least: u64) {
    for _ in rt.forever() {
        if number.load(Ordering::SeqCst) >= least {
            return;
        }
        thread::yield_now();
    }
    unreachable!()
}

#[derive(Drop)]
struct Test<R: TestRuntime> {
    tx: Sender<u64, R>,
    rx: Receiver<u64, R>,
    echoed: Receiver<u64, R>,
    report: Arc<TaskReport>,
}

impl<R: TestRuntime> Test<R> {
    // Whether a message for the waiting task was taken before the task: then that waits again.
    fn overtakes(&self, rt: &R, number: u64) -> bool {
        let waits = self.report.waits.load(Ordering::SeqCst);
        let _ = self.tx.send(number);
        let is_taken = self.rx.try_recv().is_ok();
        if is_taken {
            wait_for(rt, &self.report.waits, waits.wrapping_add(1));
        }
        is_taken
    }

    fn comes_back(&self, rt: &R, number: u64) {
        is(rt, self.echoed.recv(), Ok(number));
    }

    fn echo_all(&self, rt: &R) {
        let (mut found, mut number) = (0u64, 0u64);
        wait_for(rt, &self.report.waits, 1);
        for _ in rt.forever() {
            if found == ROUNDS {
                return;
            }
            if self.overtakes(rt, number) {
                found = found.wrapping_add(1);
            } else {
                self.comes_back(rt, number);
                number = number.wrapping_add(1);
            }
            let _ = self.tx.send(number);
            self.comes_back(rt, number);
            number = number.wrapping_add(1);
            wait_for(rt, &self.report.sent_back, number);
        }
        unreachable!()
    }
}

fn test_task<R: TestRuntime>(rt: R, alloc: Global) {
    let (tx, rx) = channel(&rt, (rt, alloc), None);
    let (back, echoed) = channel(&rt, (rt, alloc), None);
    let (waits, sent_back) = (AtomicU64::new(0), AtomicU64::new(0));
    let report = unwrap(&rt, Arc::new(alloc, TaskReport { waits, sent_back }));
    let (other, its_report) = (unwrap(&rt, rx.clone()), unwrap(&rt, report.clone()));
    let thread = EchoThread {
        rt,
        rx: other,
        back,
        report: its_report,
    };
    let thread = spawn(&rt, thread);
    let test = Test {
        tx,
        rx,
        echoed,
        report,
    };
    test.echo_all(&rt);
    drop(test);
    is(&rt, thread.join(&rt), true);
}

#[test]
fn a_task_that_was_woken_for_nothing_waits_again_and_loses_no_wake(rt: HostRuntime) {
    let watchdog = start_watchdog(rt, rt.alloc());
    test_task(rt, rt.alloc());
    watchdog.end(&rt);
}
