//! A receive as a future.
ghost use Rattle.std.specs.Prelude.{◌≡◌, ◌+◌, ◌<◌, ⊤, Result, None, vec_len, vec_capacity};
ghost use Rattle.futures.specs.Task.{Covers, Keeps};
ghost use Rattle.futures.specs.Poll.{IfReady, OnPending};
ghost use Rattle.flume.specs.CallSteps.{HasReplied, IsTerminated};
ghost use Rattle.flume.specs.OwnedEnds.{end_of};
ghost use Rattle.flume.specs.LockedPolls.{answer_of};
ghost use Rattle.flume.specs.ReceivePolls.{LeavesCall, HasPolledReceive, HasPolledMany};

use crate::polled::owned_or_ref::OwnedOrRef;
use crate::receiver::Receiver;
use crate::shared::Waits;
use crate::task::Task;
use flume_calls::polled::PolledReceive;
use flume_core::error::RecvError;
use flume_keeper::NoParty;
use flume_model::step::{Kind, Reply, Step};
use futures::Future;
use futures::task::{Context, Poll};
use std::alloc::{Allocator, Global};
use std::fmt;

/// The next message, as a future, with the errors of `recv`. Polled after it was ready, it asks for
/// one more, or again after `NoMemory`. Dropped as it waits, it passes its wake on to a receiver.
pub struct RecvFut<'a, T, R: Waits, A: Allocator + Copy = Global> {
    pub(crate) receiver: OwnedOrRef<'a, Receiver<T, R, A>>,
    call: PolledReceive,
    task: Task,
}

impl<T: Drop, R: Waits, A: Allocator + Copy> Receiver<T, R, A> {
    /// The next message as a future that borrows the receiver. Doesn't allocate.
    /// ```
    /// let (tx, rx) = flume::on(rt).unbounded()?;
    /// tx.send(42)?;
    /// assert_eq!(rt; block_on(&rt, rx.recv_async())?, Ok(42));
    /// ```
    pub fn recv_async(&self) -> RecvFut<'_, T, R, A>
        ensures channel { end_of result.receiver ≡ self.now }
        ensures call { result.call ≡ record { kind = Kind.Plain; call = None } }
    {
        RecvFut::new(OwnedOrRef::Ref(self), Kind::Plain)
    }

    /// The next message as a future that owns the receiver. Doesn't allocate.
    pub fn into_recv_async<'a>(self) -> RecvFut<'a, T, R, A>
        ensures channel { end_of result.receiver ≡ self }
        ensures call { result.call ≡ record { kind = Kind.Plain; call = None } }
    {
        RecvFut::new(OwnedOrRef::Owned(self), Kind::Plain)
    }
}

impl<'a, T: Drop, R: Waits, A: Allocator + Copy> RecvFut<'a, T, R, A> {
    pub(crate) fn new(receiver: OwnedOrRef<'a, Receiver<T, R, A>>, kind: Kind) -> Self
        ensures receiver { result.receiver ≡ receiver.entry }
        ensures call { result.call ≡ record { kind = kind; call = None } }
    {
        RecvFut {
            receiver,
            call: PolledReceive::new(kind),
            task: Task::new(),
        }
    }

    pub(crate) fn poll_receives(
        &mut self,
        cx: &mut Context<'_>,
        buffer: Vec<T, A>,
        more: usize,
    ) -> (Vec<T, A>, Option<Result<usize, RecvError>>)
        requires room { vec_len buffer < vec_capacity buffer }
        ensures polled { HasPolledMany A (more + 1) buffer.items self.old.call result.0.items
            self.new.call result.1 }
        ensures receiver { self.new.receiver ≡ self.old.receiver }
        ensures registered { result.1 ≡ None
            → Covers cx.new (λ source. source ≡ self.new.task.source.id) }
        ensures kept { Keeps cx.old cx.new }
    {
        let shared = self.receiver.get().shared();
        shared.poll_receives(&mut self.call, &self.task, cx, buffer, more)
    }

    /// Whether all senders, or all receivers, have been dropped.
    pub fn is_disconnected(&self) -> bool
        ensures made { HasReplied {T = T} {A = A} Step.IsDisconnected (Reply.Flag result) }
    {
        self.receiver.get().is_disconnected()
    }

    /// Whether no message is queued.
    pub fn is_empty(&self) -> bool
        ensures made { HasReplied {T = T} {A = A} Step.IsEmpty (Reply.Flag result) }
    {
        self.receiver.get().is_empty()
    }

    /// Whether a bounded channel's queue is at or past its capacity.
    pub fn is_full(&self) -> bool
        ensures made { HasReplied {T = T} {A = A} Step.IsFull (Reply.Flag result) }
    {
        self.receiver.get().is_full()
    }

    /// How many messages are queued.
    pub fn len(&self) -> usize
        ensures made { HasReplied {T = T} {A = A} Step.Len (Reply.Number result) }
    {
        self.receiver.get().len()
    }

    /// The capacity, or `None` if unbounded.
    pub fn capacity(&self) -> Option<usize>
        ensures made { HasReplied {T = T} {A = A} Step.Capacity (Reply.Capacity result) }
    {
        self.receiver.get().capacity()
    }

    /// Whether the channel is disconnected and no message is queued, not whether this was ready.
    pub fn is_terminated(&self) -> bool
        ensures made { IsTerminated T A result }
    {
        self.is_disconnected() && self.is_empty()
    }
}

impl<T: Drop, R: Waits, A: Allocator + Copy> Future for RecvFut<'_, T, R, A> {
    type Output = Result<T, RecvError>;

    ghost can_poll = { λ _. ⊤ };

    ghost gives = { λ _ _. ⊤ };

    ghost needs = { λ future source. source ≡ future.task.source.id };

    #[inline(always)]
    fn poll(&mut self, cx: &mut Context<'_>) -> Poll<Result<T, RecvError>>
        ensures value { IfReady result (λ _. ⊤) }
        ensures again { OnPending result ⊤ }
        ensures same { OnPending result (Result T RecvError → ⊤ → ⊤) }
        ensures registered { OnPending result
            (Covers cx.new (λ source. source ≡ self.new.task.source.id)) }
        ensures kept { Keeps cx.old cx.new }
        ensures polled { HasPolledReceive A self.old.call self.new.call (answer_of result) }
        ensures call { LeavesCall self.old.call self.new.call (answer_of result) }
        ensures receiver { self.new.receiver ≡ self.old.receiver }
    {
        let shared = self.receiver.get().shared();
        match shared.poll(&mut NoParty, &mut self.call, &self.task, cx) {
            Some(answer) => Poll::Ready(answer),
            None => Poll::Pending,
        }
    }
}

impl<T: Drop, R: Waits, A: Allocator + Copy> fmt::Debug for RecvFut<'_, T, R, A> {
    fn fmt<W: fmt::Write>(&self, f: &mut fmt::Formatter<W>) -> fmt::Result {
        f.write_str("RecvFut")
    }
}

impl<T: Drop, R: Waits, A: Allocator + Copy> Drop for RecvFut<'_, T, R, A> {
    #[inline(always)]
    fn drop(self) {
        let Self {
            receiver,
            mut call,
            task: _,
        } = self;
        if let Some(leaves) = call.end() {
            receiver.get().shared().call_cold(&mut NoParty, leaves);
        }
    }
}
