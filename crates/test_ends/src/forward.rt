//! A stream that is forwarded through a sink arrives whole and in its order.
use crate::fixtures::{channel, is, run, spawn, start_watchdog, unwrap};
use crate::runtime::TestRuntime;
use flume::Sender;
use flume::error::SendError;
use futures::executor::block_on;
use futures::task::{Context, Poll};
use futures::{Stream, StreamExt};
use std::alloc::Global;
use test_support::work::Work;

const ALL: u64 = 1000;

// 0, 1, 2 and so on up to an end, as a sink takes them.
#[derive(Drop)]
struct Numbers {
    next: u64,
    end: u64,
}

impl Stream for Numbers {
    type Item = Result<u64, SendError<u64>>;

    fn poll_next(&mut self, _cx: &mut Context<'_>) -> Poll<Option<Result<u64, SendError<u64>>>> {
        if self.next >= self.end {
            return Poll::Ready(None);
        }
        let number = self.next;
        self.next = self.next.saturating_add(1);
        Poll::Ready(Some(Ok(number)))
    }
}

#[derive(Drop)]
struct ForwardAll<R: TestRuntime> {
    rt: R,
    tx: Sender<u64, R>,
}

impl<R: TestRuntime> Work for ForwardAll<R> {
    type Answer = bool;

    fn work(self) -> bool {
        let ForwardAll { rt, tx } = self;
        let forward = Numbers { next: 0, end: ALL }.forward(tx.into_sink());
        match block_on(&rt, forward) {
            Ok(sink) => sink.is_ok(),
            Err(_) => false,
        }
    }
}

fn receive_all<R: TestRuntime>(rt: R, alloc: Global, capacity: usize) {
    let (tx, rx) = channel(&rt, (rt, alloc), Some(capacity));
    let forwarding = spawn(&rt, ForwardAll { rt, tx });
    let received = unwrap(&rt, run(&rt, rx.into_stream().collect(alloc)));
    is(&rt, forwarding.join(&rt), true);
    is(&rt, received.iter().copied().eq(0..ALL), true);
}

#[test]
fn a_stream_goes_through_a_sink(rt: HostRuntime) {
    let watchdog = start_watchdog(rt, rt.alloc());
    for capacity in [100, 1] {
        receive_all(rt, rt.alloc(), capacity);
    }
    watchdog.end(&rt);
}
