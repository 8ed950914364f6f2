//! Many futures and streams of one channel, polled together.
use crate::fixtures::{channel, is, run, spawn, start_watchdog, unwrap};
use crate::numbers::Numbers;
use crate::runtime::{SendUpTo, TestRuntime};
use flume::{Receiver, Waits};
use futures::stream::FuturesUnordered;
use futures::task::{Context, Poll};
use futures::{Future, StreamExt};
use std::alloc::Global;
use std::process::Abort;

const ALL: u64 = 1000;

const LOOPS: usize = 20;

// Receives until all senders have been dropped: what came, or none if memory ran out.
#[derive(Drop)]
struct ReceiveAll<'a, R: Waits> {
    numbers: Numbers<'a, R>,
    messages: Option<Vec<u64>>,
}

impl<R: Waits> ReceiveAll<'_, R> {
    fn keep(&mut self, message: u64) {
        let refused = match &mut self.messages {
            Some(messages) => messages.push(message).is_err(),
            None => true,
        };
        if refused {
            self.messages = None;
        }
    }
}

impl<R: Waits> Future for ReceiveAll<'_, R> {
    type Output = Option<Vec<u64>>;

    fn poll(&mut self, cx: &mut Context<'_>) -> Poll<Option<Vec<u64>>> {
        match self.numbers.poll_number(cx) {
            Poll::Ready(Some(message)) => {
                self.keep(message);
                cx.yield_now()
            }
            Poll::Ready(None) => Poll::Ready(self.messages.take()),
            Poll::Pending => Poll::Pending,
        }
    }
}

fn loops<'a, R: TestRuntime>(
    (rt, alloc): (R, Global),
    rx: &'a Receiver<u64, R>,
) -> FuturesUnordered<ReceiveAll<'a, R>> {
    let mut set = unwrap(&rt, FuturesUnordered::new(alloc));
    for number in 0..LOOPS {
        let numbers = Numbers::of(rx, number % 2 == 1);
        let messages = Some(Vec::new(alloc));
        unwrap(&rt, set.push(ReceiveAll { numbers, messages }));
    }
    set
}

fn count_messages(messages: &[u64], counts: &mut [u32]) {
    for &message in messages {
        if let Some(count) = counts.get_mut(message as usize) {
            *count = count.saturating_add(1);
        }
    }
}

fn count_loops(rt: &impl Abort, ended: Vec<Option<Vec<u64>>>, counts: &mut [u32]) {
    is(rt, ended.len(), LOOPS);
    for messages in ended {
        let messages = messages.expect(rt, "there is memory");
        count_messages(&messages, counts);
    }
}

fn receive_all<R: TestRuntime>(rt: R, alloc: Global) {
    let (tx, rx) = channel(&rt, (rt, alloc), Some(10));
    let set = loops((rt, alloc), &rx);
    let sender = spawn(&rt, SendUpTo { tx, end: ALL });
    let ended = unwrap(&rt, run(&rt, set.collect(alloc)));
    sender.join(&rt);
    let mut counts = unwrap(&rt, vec![in alloc; 0u32; ALL as usize]);
    count_loops(&rt, ended, counts.as_mut_slice());
    is(&rt, counts.iter().all(|&count| count == 1), true);
}

#[test]
fn twenty_loops_on_one_thread_share_the_messages_of_another(rt: HostRuntime) {
    let watchdog = start_watchdog(rt, rt.alloc());
    receive_all(rt, rt.alloc());
    watchdog.end(&rt);
}
