//! A send as a future.
ghost use Rattle.std.specs.Prelude.{◌≡◌, ◌≢◌, ℕ, ⊤, Result, Ok, Err, Some, None};
ghost use Rattle.futures.specs.Task.{Covers, Keeps};
ghost use Rattle.futures.specs.Poll.{IfReady, OnPending};
ghost use Rattle.flume_calls.specs.declared.polled.send.PolledSend.TheVariants.{Finished, Unsent};
ghost use Rattle.flume_calls.specs.declared.polled.send.PolledSend.TheVariants.{Parked};
ghost use Rattle.flume.specs.CallSteps.{HasReplied};
ghost use Rattle.flume.specs.OwnedEnds.{end_of};
ghost use Rattle.flume.specs.ManySendCalls.{PollLeaves};
ghost use Rattle.flume.specs.ManySendPolls.{PollsSends};
ghost use Rattle.flume.specs.LockedPolls.{answer_of};
ghost use Rattle.flume.specs.SendPolls.{HasPolledSend};

use crate::polled::owned_or_ref::OwnedOrRef;
use crate::sender::Sender;
use crate::shared::Waits;
use crate::task::Task;
use flume_calls::polled::PolledSend;
use flume_core::error::SendError;
use flume_keeper::NoParty;
use flume_model::step::{Reply, Step};
use futures::Future;
use futures::task::{Context, Poll};
use std::alloc::{Allocator, Global};
use std::collections::VecDeque;
use std::fmt;
use std::mem::replace;

/// A send, as a future, with the errors of `send`. Nothing is sent until it is polled, or after it
/// was ready: then it answers `Ok`. Dropped while it waits, it takes its message back and drops it.
pub struct SendFut<'a, T, R: Waits, A: Allocator + Copy = Global> {
    pub(crate) sender: OwnedOrRef<'a, Sender<T, R, A>>,
    send: PolledSend<T>,
    task: Task,
}

impl<T: Drop, R: Waits, A: Allocator + Copy> Sender<T, R, A> {
    /// Sends a message as a future that borrows the sender. Doesn't allocate.
    /// ```
    /// let (tx, rx) = flume::on(rt).unbounded()?;
    /// assert_eq!(rt; block_on(&rt, tx.send_async(42))?, Ok(()));
    /// assert_eq!(rt; rx.recv(), Ok(42));
    /// ```
    pub fn send_async(&self, message: T) -> SendFut<'_, T, R, A>
        ensures channel { end_of result.sender ≡ self.now }
        ensures message { result.send ≡ PolledSend.Unsent message }
    {
        SendFut::new(OwnedOrRef::Ref(self), PolledSend::Unsent(message))
    }

    /// Sends a message as a future that owns the sender. Doesn't allocate.
    pub fn into_send_async<'a>(self, message: T) -> SendFut<'a, T, R, A>
        ensures channel { end_of result.sender ≡ self }
        ensures message { result.send ≡ PolledSend.Unsent message }
    {
        SendFut::new(OwnedOrRef::Owned(self), PolledSend::Unsent(message))
    }
}

impl<'a, T: Drop, R: Waits, A: Allocator + Copy> SendFut<'a, T, R, A> {
    pub(crate) fn new(sender: OwnedOrRef<'a, Sender<T, R, A>>, send: PolledSend<T>) -> Self
        ensures sender { result.sender ≡ sender.entry }
        ensures send { result.send ≡ send }
    {
        SendFut {
            sender,
            send,
            task: Task::new(),
        }
    }

    pub(crate) fn restart(&mut self, message: T)
        ensures send { self.new.send ≡ PolledSend.Unsent message }
        ensures sender { self.new.sender ≡ self.old.sender }
    {
        if let Some(takes_back) = self.send.end() {
            self.sender
                .get()
                .shared()
                .call_cold(&mut NoParty, takes_back);
        }
        self.send = PolledSend::Unsent(message);
    }

    pub(crate) fn poll_sends(
        &mut self,
        cx: &mut Context<'_>,
        messages: &mut VecDeque<T, A>,
    ) -> Option<Result<(), SendError<T>>>
        ensures made { PollsSends A self.old.send messages.old.items messages.new.items
            self.new.send result }
        ensures leaves { PollLeaves self.old.send messages.old.items messages.new.items result }
        ensures finished { (answer : Result (Unit {0}) (SendError T)) → result ≡ Some answer
            → self.new.send ≡ Finished }
        ensures parked { result ≡ None → (ticket : ℕ) × (self.new.send ≡ Parked ticket) }
        ensures sender { self.new.sender ≡ self.old.sender }
        ensures registered { result ≡ None
            → Covers cx.new (λ source. source ≡ self.new.task.source.id) }
        ensures kept { Keeps cx.old cx.new }
    {
        let shared = self.sender.get().shared();
        let list = replace(messages, VecDeque::new(shared.alloc));
        let (left, answer) = shared.poll_sends(&mut self.send, &self.task, cx, list);
        *messages = left;
        answer
    }

    /// Whether all receivers, or all senders, have been dropped.
    pub fn is_disconnected(&self) -> bool
        ensures made { HasReplied {T = T} {A = A} Step.IsDisconnected (Reply.Flag result) }
    {
        self.sender.get().is_disconnected()
    }

    /// Whether no message is queued.
    pub fn is_empty(&self) -> bool
        ensures made { HasReplied {T = T} {A = A} Step.IsEmpty (Reply.Flag result) }
    {
        self.sender.get().is_empty()
    }

    /// Whether a bounded channel's queue is at or past its capacity.
    pub fn is_full(&self) -> bool
        ensures made { HasReplied {T = T} {A = A} Step.IsFull (Reply.Flag result) }
    {
        self.sender.get().is_full()
    }

    /// How many messages are queued.
    pub fn len(&self) -> usize
        ensures made { HasReplied {T = T} {A = A} Step.Len (Reply.Number result) }
    {
        self.sender.get().len()
    }

    /// The capacity, or `None` if unbounded.
    pub fn capacity(&self) -> Option<usize>
        ensures made { HasReplied {T = T} {A = A} Step.Capacity (Reply.Capacity result) }
    {
        self.sender.get().capacity()
    }

    /// Whether the channel is disconnected, not whether this was ready.
    pub fn is_terminated(&self) -> bool
        ensures made { HasReplied {T = T} {A = A} Step.IsDisconnected (Reply.Flag result) }
    {
        self.is_disconnected()
    }
}

impl<T: Drop, R: Waits, A: Allocator + Copy> Future for SendFut<'_, T, R, A> {
    type Output = Result<(), SendError<T>>;

    ghost can_poll = { λ _. ⊤ };

    // What comes back after it parked came through the lock, of which no contract knows.
    ghost gives = { λ future answer. future.send ≡ Finished → answer ≡ Ok tt };

    ghost needs = { λ future source. source ≡ future.task.source.id };

    #[inline(always)]
    fn poll(&mut self, cx: &mut Context<'_>) -> Poll<Result<(), SendError<T>>>
        ensures value { IfReady result (λ answer. self.old.send ≡ Finished → answer ≡ Ok tt) }
        ensures again { OnPending result ⊤ }
        ensures same { OnPending result ((answer : Result (Unit {0}) (SendError T))
            → (self.new.send ≡ Finished → answer ≡ Ok tt)
            → (self.old.send ≡ Finished → answer ≡ Ok tt)) }
        ensures registered { OnPending result
            (Covers cx.new (λ source. source ≡ self.new.task.source.id)) }
        ensures kept { Keeps cx.old cx.new }
        ensures ready_if_finished { self.old.send ≡ Finished → result ≡ Poll.Ready (Ok tt) }
        ensures polled { self.old.send ≢ Finished
            → HasPolledSend A self.old.send self.new.send (answer_of result) }
        ensures finished { IfReady result (λ _. self.new.send ≡ Finished) }
        ensures parked { OnPending result ((ticket : ℕ) × (self.new.send ≡ Parked ticket)) }
        ensures stays { (ticket : ℕ) → self.old.send ≡ Parked ticket
            → OnPending result (self.new.send ≡ Parked ticket) }
        ensures sender { self.new.sender ≡ self.old.sender }
        ensures disconnected { (message back : T) → self.old.send ≡ Unsent message
            → result ≡ Poll.Ready (Err (SendError.Disconnected back)) → back ≡ message }
        ensures no_memory { (message back : T) → self.old.send ≡ Unsent message
            → result ≡ Poll.Ready (Err (SendError.NoMemory back)) → back ≡ message }
    {
        if let PolledSend::Finished = &self.send {
            return Poll::Ready(Ok(()));
        }
        let shared = self.sender.get().shared();
        match shared.poll(&mut NoParty, &mut self.send, &self.task, cx) {
            Some(answer) => Poll::Ready(answer),
            None => Poll::Pending,
        }
    }
}

impl<T: Drop, R: Waits, A: Allocator + Copy> fmt::Debug for SendFut<'_, T, R, A> {
    fn fmt<W: fmt::Write>(&self, f: &mut fmt::Formatter<W>) -> fmt::Result {
        f.write_str("SendFut")
    }
}

impl<T: Drop, R: Waits, A: Allocator + Copy> Drop for SendFut<'_, T, R, A> {
    #[inline(always)]
    fn drop(self) {
        let Self {
            sender,
            mut send,
            task: _,
        } = self;
        if let Some(takes_back) = send.end() {
            sender.get().shared().call_cold(&mut NoParty, takes_back);
        }
    }
}
