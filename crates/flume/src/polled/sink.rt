//! A sender as a sink.
ghost use Rattle.std.specs.Prelude.{◌≡◌, ◌==◌, ℕ, [], ⊤, List, Ok, OnOk};
ghost use Rattle.futures.specs.Task.{Covers, Keeps};
ghost use Rattle.futures.specs.Poll.{IfReady, OnPending};
ghost use Rattle.futures.specs.Sent.{UnlessFailed};
ghost use Rattle.flume_calls.specs.declared.polled.send.PolledSend.TheVariants.{Finished, Parked};
ghost use Rattle.flume.specs.CallSteps.{HasReplied};
ghost use Rattle.flume.specs.OwnedEnds.{end_of};
ghost use Rattle.flume.specs.ManySendCalls.{IsEndOf, PollLeaves};
ghost use Rattle.flume.specs.ManySendPolls.{PollsSends};
ghost use Rattle.flume.specs.LockedPolls.{answer_of};
ghost use Rattle.flume.specs.SendPolls.{IsPollOfSend};

use crate::polled::many::is_sent;
use crate::polled::owned_or_ref::OwnedOrRef;
use crate::polled::send::SendFut;
use crate::sender::Sender;
use crate::shared::Waits;
use flume_calls::polled::PolledSend;
use flume_core::error::SendError;
use flume_model::step::{Reply, Step};
use futures::task::{Context, Poll};
use futures::{Future, Sink};
use std::alloc::{AllocError, Allocator, Global};
use std::collections::VecDeque;
use std::fmt;

/// A sender as a sink. `start_send` keeps the message, and drops one that it kept before and that
/// wasn't sent. The polls send it, with the errors of `send`; none closes the channel.
#[derive(Drop)]
pub struct SendSink<'a, T, R: Waits, A: Allocator + Copy = Global> {
    future: SendFut<'a, T, R, A>,
}

impl<T: Drop, R: Waits, A: Allocator + Copy> Sender<T, R, A> {
    /// The sender as a sink that borrows it. Doesn't allocate.
    /// ```
    /// let (tx, rx) = flume::on(rt).unbounded()?;
    /// let _sink = block_on(&rt, tx.sink().send(42))?;
    /// assert_eq!(rt; rx.recv(), Ok(42));
    /// ```
    pub fn sink(&self) -> SendSink<'_, T, R, A>
        ensures channel { end_of result.future.sender ≡ self.now }
        ensures no_message { result.future.send ≡ PolledSend.Finished }
    {
        SendSink::new(OwnedOrRef::Ref(self))
    }

    /// The sender as a sink that owns it. Doesn't allocate.
    pub fn into_sink<'a>(self) -> SendSink<'a, T, R, A>
        ensures channel { end_of result.future.sender ≡ self }
        ensures no_message { result.future.send ≡ PolledSend.Finished }
    {
        SendSink::new(OwnedOrRef::Owned(self))
    }
}

impl<'a, T: Drop, R: Waits, A: Allocator + Copy> SendSink<'a, T, R, A> {
    pub(crate) fn new(sender: OwnedOrRef<'a, Sender<T, R, A>>) -> Self
        ensures sender { result.future.sender ≡ sender.entry }
        ensures finished { result.future.send ≡ Finished }
    {
        SendSink {
            future: SendFut::new(sender, PolledSend::Finished),
        }
    }

    /// Sends these messages in order, behind one that the sink keeps. `Ok`: all are sent, and the
    /// list has lost its room. Pending: the sink keeps the next one. An error has the first that
    /// wasn't sent, and the sink keeps none. Those behind it stay in the list.
    /// ```
    /// let (tx, rx) = flume::on(rt).bounded(1)?;
    /// let mut sink = tx.sink();
    /// let mut messages = VecDeque::from_vec(vec![in rt.alloc(); 1, 2, 3]?);
    /// let task = MockTask::new(&rt)?;
    /// let polled = task.enter(|cx| sink.poll_send_many(cx, &mut messages));
    /// assert_eq!(rt; polled, Poll::Pending);
    /// assert_eq!(rt; messages.len(), 1);
    /// assert_eq!(rt; rx.recv(), Ok(1));
    /// assert_eq!(rt; rx.recv(), Ok(2));
    /// let polled = task.enter(|cx| sink.poll_send_many(cx, &mut messages));
    /// assert_eq!(rt; polled, Poll::Ready(Ok(())));
    /// assert_eq!(rt; rx.recv(), Ok(3));
    /// ```
    pub fn poll_send_many(
        &mut self,
        cx: &mut Context<'_>,
        messages: &mut VecDeque<T, A>,
    ) -> Poll<Result<(), SendError<T>>>
        ensures made { PollsSends A self.old.future.send messages.old.items messages.new.items
            self.new.future.send (answer_of result) }
        ensures all { result ≡ Poll.Ready (Ok tt) → messages.new.items ≡ [] }
        ensures rest { IsEndOf messages.old.items messages.new.items }
        ensures leaves { PollLeaves self.old.future.send messages.old.items messages.new.items
            (answer_of result) }
        ensures finished { IfReady result (λ _. self.new.future.send ≡ Finished) }
        ensures parked { OnPending result ((ticket : ℕ) × (self.new.future.send ≡ Parked ticket)) }
        ensures sender { self.new.future.sender ≡ self.old.future.sender }
        ensures registered { OnPending result
            (Covers cx.new (λ source. source ≡ self.new.future.task.source.id)) }
        ensures kept { Keeps cx.old cx.new }
    {
        let mut answer = self.future.poll_sends(cx, messages);
        while !messages.is_empty() && is_sent(&answer) {
            answer = self.future.poll_sends(cx, messages);
        }
        match answer {
            Some(answer) => Poll::Ready(answer),
            None => Poll::Pending,
        }
    }

    /// The sender that it sends by.
    pub fn sender(&self) -> &Sender<T, R, A>
        ensures sender { result.now ≡ end_of self.now.future.sender }
    {
        self.future.sender.get()
    }

    /// Whether all receivers, or all senders, have been dropped.
    pub fn is_disconnected(&self) -> bool
        ensures made { HasReplied {T = T} {A = A} Step.IsDisconnected (Reply.Flag result) }
    {
        self.future.is_disconnected()
    }

    /// Whether no message is queued.
    pub fn is_empty(&self) -> bool
        ensures made { HasReplied {T = T} {A = A} Step.IsEmpty (Reply.Flag result) }
    {
        self.future.is_empty()
    }

    /// Whether a bounded channel's queue is at or past its capacity.
    pub fn is_full(&self) -> bool
        ensures made { HasReplied {T = T} {A = A} Step.IsFull (Reply.Flag result) }
    {
        self.future.is_full()
    }

    /// How many messages are queued. One that the sink keeps isn't.
    pub fn len(&self) -> usize
        ensures made { HasReplied {T = T} {A = A} Step.Len (Reply.Number result) }
    {
        self.future.len()
    }

    /// The capacity, or `None` if unbounded.
    pub fn capacity(&self) -> Option<usize>
        ensures made { HasReplied {T = T} {A = A} Step.Capacity (Reply.Capacity result) }
    {
        self.future.capacity()
    }

    /// Whether both send into channels of the same number.
    pub fn same_channel(&self, other: &Self) -> bool
        ensures same { result ≡ (end_of self.now.future.sender == end_of other.now.future.sender) }
    {
        self.sender().same_channel(other.sender())
    }
}

impl<T: Drop, R: Waits, A: Allocator + Copy> Sink<T> for SendSink<'_, T, R, A> {
    type Error = SendError<T>;

    ghost is_flushed = { λ sink. sink.future.send ≡ Finished };

    ghost is_closed = { λ sink. sink.future.send ≡ Finished };

    ghost needs = { λ sink source. source ≡ sink.future.task.source.id };

    fn poll_ready(&mut self, cx: &mut Context<'_>) -> Poll<Result<(), SendError<T>>>
        ensures ready { IfReady result (λ answer. OnOk answer (⊤ × ⊤)) }
        ensures again { OnPending result ⊤ }
        ensures same { T → ⊤ → ⊤ }
        ensures history { UnlessFailed result (List T → ⊤ → ⊤) }
        ensures registered { OnPending result
            (Covers cx.new (λ source. source ≡ self.new.future.task.source.id)) }
        ensures kept { Keeps cx.old cx.new }
        ensures sends { IsPollOfSend A self.old.future.send self.new.future.send result }
        ensures sender { self.new.future.sender ≡ self.old.future.sender }
    {
        self.future.poll(cx)
    }

    fn start_send(&mut self, message: T) -> Result<(), SendError<T>>
        ensures goes { OnOk result ⊤ }
        ensures same { T → ⊤ → ⊤ }
        ensures history { OnOk result ((items : List T) → ⊤ → ⊤) }
        ensures keeps { self.new.future.send ≡ PolledSend.Unsent message }
        ensures sender { self.new.future.sender ≡ self.old.future.sender }
        ensures ok { result ≡ Ok tt }
    {
        self.future.restart(message);
        Ok(())
    }

    fn poll_flush(&mut self, cx: &mut Context<'_>) -> Poll<Result<(), SendError<T>>>
        ensures goes { IfReady result (λ answer. OnOk answer ⊤) }
        ensures flushed { IfReady result (λ answer. OnOk answer (self.new.future.send ≡ Finished)) }
        ensures again { OnPending result ⊤ }
        ensures same { T → ⊤ → ⊤ }
        ensures history { UnlessFailed result (List T → ⊤ → ⊤) }
        ensures registered { OnPending result
            (Covers cx.new (λ source. source ≡ self.new.future.task.source.id)) }
        ensures kept { Keeps cx.old cx.new }
        ensures sends { IsPollOfSend A self.old.future.send self.new.future.send result }
        ensures sender { self.new.future.sender ≡ self.old.future.sender }
    {
        self.future.poll(cx)
    }

    fn poll_close(&mut self, cx: &mut Context<'_>) -> Poll<Result<(), SendError<T>>>
        ensures closed { IfReady result (λ answer. OnOk answer (self.new.future.send ≡ Finished)) }
        ensures again { OnPending result ⊤ }
        ensures history { UnlessFailed result (List T → ⊤ → ⊤) }
        ensures registered { OnPending result
            (Covers cx.new (λ source. source ≡ self.new.future.task.source.id)) }
        ensures kept { Keeps cx.old cx.new }
        ensures sends { IsPollOfSend A self.old.future.send self.new.future.send result }
        ensures sender { self.new.future.sender ≡ self.old.future.sender }
    {
        self.future.poll(cx)
    }
}

impl<T: Drop, R: Waits, A: Allocator + Copy> Clone for SendSink<'_, T, R, A> {
    ghost is_clone = { λ sink copy. (end_of copy.future.sender ≡ end_of sink.future.sender)
        × (copy.future.send ≡ Finished) };

    fn clone(&self) -> Result<Self, AllocError> {
        Ok(SendSink::new(self.future.sender.clone()?))
    }
}

impl<T: Drop, R: Waits, A: Allocator + Copy> fmt::Debug for SendSink<'_, T, R, A> {
    fn fmt<W: fmt::Write>(&self, f: &mut fmt::Formatter<W>) -> fmt::Result {
        f.write_str("SendSink")
    }
}
