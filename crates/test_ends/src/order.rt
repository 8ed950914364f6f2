//! Futures and streams keep the order of messages.
use crate::fixtures::{channel, is, run, spawn, start_watchdog, unwrap};
use crate::numbers::Numbers;
use crate::runtime::{SendUpTo, TestRuntime};
use flume::error::RecvError;
use flume::polled::SendFut;
use flume::{Receiver, Sender, Waits};
use futures::Future;
use futures::future::join;
use futures::task::{Context, Poll};
use std::alloc::Global;
use test_support::capacities::{KeepChangingCapacity, wait_for_capacity_change};

const ALL: u64 = 10_000;

#[derive(Drop)]
struct ReceiveInOrder<'a, R: Waits> {
    numbers: Numbers<'a, R>,
    next: u64,
}

impl<R: Waits> Future for ReceiveInOrder<'_, R> {
    type Output = bool;

    fn poll(&mut self, cx: &mut Context<'_>) -> Poll<bool> {
        match self.numbers.poll_number(cx) {
            Poll::Ready(Some(number)) if number == self.next => {
                self.next = self.next.saturating_add(1);
                if self.next == ALL {
                    return Poll::Ready(true);
                }
                cx.yield_now()
            }
            Poll::Ready(_) => Poll::Ready(false),
            Poll::Pending => Poll::Pending,
        }
    }
}

fn receive_in_order<R: Waits>(rx: &Receiver<u64, R>, by_stream: bool) -> ReceiveInOrder<'_, R> {
    ReceiveInOrder {
        numbers: Numbers::of(rx, by_stream),
        next: 0,
    }
}

fn receive_from_thread<R: TestRuntime>(rt: R, alloc: Global, by_stream: bool) {
    let (tx, rx) = channel(&rt, (rt, alloc), None);
    let sender = spawn(&rt, SendUpTo { tx, end: ALL });
    is(&rt, run(&rt, receive_in_order(&rx, by_stream)), true);
    is(&rt, rx.recv(), Err(RecvError::Disconnected));
    sender.join(&rt);
}

#[test]
fn futures_and_a_stream_receive_in_the_order_receive_from_thread(rt: HostRuntime) {
    let watchdog = start_watchdog(rt, rt.alloc());
    for by_stream in [false, true] {
        receive_from_thread(rt, rt.alloc(), by_stream);
    }
    watchdog.end(&rt);
}

#[derive(Drop)]
struct SendInOrder<'a, R: Waits> {
    tx: &'a Sender<u64, R>,
    send: SendFut<'a, u64, R>,
    next: u64,
}

impl<R: Waits> Future for SendInOrder<'_, R> {
    type Output = bool;

    fn poll(&mut self, cx: &mut Context<'_>) -> Poll<bool> {
        match self.send.poll(cx) {
            Poll::Ready(Ok(())) if self.next < ALL => {
                self.send = self.tx.send_async(self.next);
                self.next = self.next.saturating_add(1);
                cx.yield_now()
            }
            Poll::Ready(sent) => Poll::Ready(sent.is_ok()),
            Poll::Pending => Poll::Pending,
        }
    }
}

fn pass_all<R: TestRuntime>(rt: R, tx: &Sender<u64, R>, rx: &Receiver<u64, R>) {
    let send = tx.send_async(0);
    let sends = SendInOrder { tx, send, next: 1 };
    let both = run(&rt, join(sends, receive_in_order(rx, false)));
    is(&rt, both, (true, true));
}

// At capacity 4, and at one that another thread keeps changing.
fn pass_all_twice<R: TestRuntime>(rt: R, alloc: Global) {
    let (tx, rx) = channel(&rt, (rt, alloc), Some(4));
    pass_all(rt, &tx, &rx);
    let other = unwrap(&rt, rx.clone());
    let changing = spawn(&rt, KeepChangingCapacity { rt, rx: other });
    wait_for_capacity_change(&rt, &rx, 4);
    pass_all(rt, &tx, &rx);
    drop((tx, rx));
    is(&rt, changing.join(&rt) > 0, true);
}

#[test]
fn two_futures_on_one_thread_pass_numbers_in_order_also_while_another_changes_the_capacity(
    rt: HostRuntime,
) {
    let watchdog = start_watchdog(rt, rt.alloc());
    pass_all_twice(rt, rt.alloc());
    watchdog.end(&rt);
}
