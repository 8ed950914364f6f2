//! Numbers received by futures or by a stream.
ghost use Rattle.futures.specs.Poll.{OnPending};
ghost use Rattle.futures.specs.Task.{IsArmed, Keeps};

use flume::polled::{RecvFut, RecvStream};
use flume::{Receiver, Waits};
use futures::task::{Context, Poll};
use futures::{Future, Stream};

/// What they are received by.
#[derive(Drop)]
pub(crate) enum Numbers<'a, R: Waits> {
    Futures(RecvFut<'a, u64, R>),
    Stream(RecvStream<'a, u64, R>),
}

impl<'a, R: Waits> Numbers<'a, R> {
    pub(crate) fn of(rx: &'a Receiver<u64, R>, by_stream: bool) -> Numbers<'a, R> {
        if by_stream {
            Numbers::Stream(rx.stream())
        } else {
            Numbers::Futures(rx.recv_async())
        }
    }
}

impl<R: Waits> Numbers<'_, R> {
    /// The next number, or none once all senders have been dropped.
    pub(crate) fn poll_number(&mut self, cx: &mut Context<'_>) -> Poll<Option<u64>>
        ensures armed { OnPending result (IsArmed cx.new) }
        ensures kept { Keeps cx.old cx.new }
    {
        match self {
            Numbers::Futures(future) => match future.poll(cx) {
                Poll::Ready(received) => Poll::Ready(received.ok()),
                Poll::Pending => Poll::Pending,
            },
            Numbers::Stream(stream) => stream.poll_next(cx),
        }
    }
}
