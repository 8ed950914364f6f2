//! Polls of sinks and streams.
ghost use Rattle.std.specs.Prelude.{◌≡◌, [], Ok};
ghost use Rattle.flume.specs.LockedPolls.{answer_of};
ghost use Rattle.flume.specs.ManySendCalls.{IsEndOf, PollLeaves};
ghost use Rattle.flume.specs.ManySendPolls.{PollsSends};
ghost use Rattle.flume.specs.ReceivePolls.{HasPolledReceive};

use flume::polled::{RecvStream, SendSink};
use flume::{RecvError, SendError, Waits};
use futures::Stream;
use futures::task::{Context, Poll};
use std::alloc::Allocator;
use std::collections::VecDeque;

/// Polls a sink that sends these messages, in order, behind one that the sink keeps. What is left
/// of the list, what the sink keeps, and the answer are what the polls of these sends came to.
pub fn poll_all<T: Drop, R: Waits, A: Allocator + Copy>(
    sink: &mut SendSink<'_, T, R, A>,
    cx: &mut Context<'_>,
    messages: &mut VecDeque<T, A>,
) -> Poll<Result<(), SendError<T>>>
    ensures polled { PollsSends A sink.old.future.send messages.old.items messages.new.items
        sink.new.future.send (answer_of result) }
    ensures all { result ≡ Poll.Ready (Ok tt) → messages.new.items ≡ [] }
    ensures rest { IsEndOf messages.old.items messages.new.items }
    ensures leaves { PollLeaves sink.old.future.send messages.old.items messages.new.items
        (answer_of result) }
{
    sink.poll_send_many(cx, messages)
}

/// Polls a stream for its next message. The answer is that of the one receive that was polled: a
/// stream that ends says whether there was no memory, or all senders have been dropped.
pub fn poll_message<T: Drop, R: Waits, A: Allocator + Copy>(
    messages: &mut RecvStream<'_, T, R, A>,
    cx: &mut Context<'_>,
) -> Poll<Result<T, RecvError>>
    ensures polled { HasPolledReceive A messages.old.next.call messages.new.next.call
        (answer_of result) }
{
    match messages.poll_next(cx) {
        Poll::Ready(Some(message)) => Poll::Ready(Ok(message)),
        Poll::Ready(None) if messages.fault() => Poll::Ready(Err(RecvError::NoMemory)),
        Poll::Ready(None) => Poll::Ready(Err(RecvError::Disconnected)),
        Poll::Pending => Poll::Pending,
    }
}
