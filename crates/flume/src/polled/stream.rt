//! The messages of a receiver as a stream.
ghost use Rattle.std.specs.Prelude.{◌≡◌, ◌==◌, ◌↔◌, ◌⊎◌, ◌+◌, ◌<◌, ⊤, true, false, Ok, Err};
ghost use Rattle.std.specs.Prelude.{Some, None, IsErr, IfOk, OnErr, IfSome, OnSome};
ghost use Rattle.std.specs.Prelude.{vec_len, vec_capacity};
ghost use Rattle.futures.specs.Task.{Covers, Keeps};
ghost use Rattle.futures.specs.Poll.{IfReady, OnPending};
ghost use Rattle.futures.specs.Runs.{After, Within};
ghost use Rattle.flume_model.specs.declared.step.Kind.TheVariants.{Stream};
ghost use Rattle.flume.specs.CallSteps.{HasReplied, IsTerminated};
ghost use Rattle.flume.specs.OwnedEnds.{end_of};
ghost use Rattle.flume.specs.ManyReceiveCalls.{Appends};
ghost use Rattle.flume.specs.LockedPolls.{answer_of};
ghost use Rattle.flume.specs.ReceivePolls.{answer_of_item, LeavesCall};
ghost use Rattle.flume.specs.ReceivePolls.{HasPolledReceive, HasPolledMany};

use crate::polled::owned_or_ref::OwnedOrRef;
use crate::polled::receive::RecvFut;
use crate::receiver::Receiver;
use crate::shared::Waits;
use flume_core::error::{NoMemory, RecvError};
use flume_model::step::{Kind, Reply, Step};
use futures::task::{Context, Poll};
use futures::{Future, Stream};
use std::alloc::{AllocError, Allocator, Global};
use std::fmt;
use std::mem::replace;

// What a stream gives, and whether that is for want of memory.
#[inline(always)]
pub(crate) fn as_item<T>(answer: Result<T, RecvError>) -> (Option<T>, bool)
    ensures answer { answer_of_item (Poll.Ready result.0) result.1 ≡ Some answer }
    ensures ends { result.1 ≡ true → result.0 ≡ None }
{
    match answer {
        Ok(message) => (Some(message), false),
        Err(error) => (None, error == RecvError::NoMemory),
    }
}

/// The messages of a receiver, as a stream. It ends as `Iter` does.
#[derive(Drop)]
pub struct RecvStream<'a, T, R: Waits, A: Allocator + Copy = Global> {
    next: RecvFut<'a, T, R, A>,
    fault: bool,
}

impl<T: Drop, R: Waits, A: Allocator + Copy> Receiver<T, R, A> {
    /// The messages as a stream that borrows the receiver. Doesn't allocate.
    /// ```
    /// let (tx, rx) = flume::on(rt).unbounded()?;
    /// tx.send(42)?;
    /// drop(tx);
    /// let messages = block_on(&rt, rx.stream().collect(rt.alloc()))??;
    /// assert_eq!(rt; messages.first().copied(), Some(42));
    /// ```
    pub fn stream(&self) -> RecvStream<'_, T, R, A>
        ensures channel { end_of result.next.receiver ≡ self.now }
        ensures call { result.next.call ≡ record { kind = Kind.Stream; call = None } }
        ensures no_fault { result.fault ≡ false }
    {
        RecvStream::new(OwnedOrRef::Ref(self))
    }

    /// The messages as a stream that owns the receiver. Doesn't allocate.
    pub fn into_stream<'a>(self) -> RecvStream<'a, T, R, A>
        ensures channel { end_of result.next.receiver ≡ self }
        ensures call { result.next.call ≡ record { kind = Kind.Stream; call = None } }
        ensures no_fault { result.fault ≡ false }
    {
        RecvStream::new(OwnedOrRef::Owned(self))
    }
}

impl<'a, T: Drop, R: Waits, A: Allocator + Copy> RecvStream<'a, T, R, A> {
    pub(crate) fn new(receiver: OwnedOrRef<'a, Receiver<T, R, A>>) -> Self
        ensures receiver { result.next.receiver ≡ receiver.entry }
        ensures call { result.next.call ≡ record { kind = Kind.Stream; call = None } }
        ensures no_fault { result.fault ≡ false }
    {
        RecvStream {
            next: RecvFut::new(receiver, Kind::Stream),
            fault: false,
        }
    }

    /// Whether the last poll gave nothing because memory ran out: then more may come.
    pub fn fault(&self) -> bool
        ensures fault { result ≡ self.now.fault }
    {
        self.fault
    }

    /// `NoMemory` if `fault` is true, for a `?`.
    pub fn ended(&self) -> Result<(), NoMemory>
        ensures no_memory { IsErr result ↔ self.now.fault ≡ true }
    {
        if self.fault { Err(NoMemory) } else { Ok(()) }
    }

    /// As `Receiver::recv_many`, polled. `NoMemory`: `buffer` can't grow by one message, or there
    /// was none to wait. If it can't grow further, it takes what there is room for.
    /// ```
    /// let (tx, rx) = flume::on(rt).unbounded()?;
    /// tx.send(1)?;
    /// tx.send(2)?;
    /// let mut messages = Vec::new(rt.alloc());
    /// let mut stream = rx.stream();
    /// let task = MockTask::new(&rt)?;
    /// let polled = task.enter(|cx| stream.poll_recv_many(cx, &mut messages, 64));
    /// assert_eq!(rt; polled, Poll::Ready(Ok(2)));
    /// assert_eq!(rt; messages.as_slice(), [1, 2].as_slice());
    /// ```
    pub fn poll_recv_many(
        &mut self,
        cx: &mut Context<'_>,
        buffer: &mut Vec<T, A>,
        most: usize,
    ) -> Poll<Result<usize, RecvError>>
        ensures appended { IfReady result (λ answer.
            IfOk answer (Appends most buffer.old.items buffer.new.items)) }
        ensures unchanged { IfReady result (λ answer.
            OnErr answer (buffer.new.items ≡ buffer.old.items)) }
        ensures waits { OnPending result (buffer.new.items ≡ buffer.old.items) }
        ensures registered { OnPending result
            (Covers cx.new (λ source. source ≡ self.new.next.task.source.id)) }
        ensures kept { Keeps cx.old cx.new }
        ensures none { most ≡ 0
            → (result ≡ Poll.Ready (Ok 0)) × (self.new.next ≡ self.old.next) }
        ensures polled { 0 < most → ((result ≡ Poll.Ready (Err RecvError.NoMemory))
            × (vec_capacity buffer.old < vec_len buffer.old + 1))
            ⊎ HasPolledMany A most buffer.old.items self.old.next.call buffer.new.items
            self.new.next.call (answer_of result) }
        ensures call { 0 < most
            → LeavesCall self.old.next.call self.new.next.call (answer_of result) }
        ensures receiver { self.new.next.receiver ≡ self.old.next.receiver }
        ensures fault { (self.new.fault ≡ true) ↔ (result ≡ Poll.Ready (Err RecvError.NoMemory)) }
    {
        self.fault = false;
        if most == 0 {
            return Poll::Ready(Ok(0));
        }
        if buffer.try_reserve(1).is_err() {
            self.fault = true;
            return Poll::Ready(Err(RecvError::NoMemory));
        }
        let list = replace(buffer, Vec::new(self.next.receiver.get().shared().alloc));
        let (list, answer) = self.next.poll_receives(cx, list, most - 1);
        *buffer = list;
        let Some(answer) = answer else {
            return Poll::Pending;
        };
        self.fault = matches!(answer, Err(RecvError::NoMemory));
        Poll::Ready(answer)
    }

    /// Whether all senders, or all receivers, have been dropped.
    pub fn is_disconnected(&self) -> bool
        ensures made { HasReplied {T = T} {A = A} Step.IsDisconnected (Reply.Flag result) }
    {
        self.next.is_disconnected()
    }

    /// Whether no message is queued.
    pub fn is_empty(&self) -> bool
        ensures made { HasReplied {T = T} {A = A} Step.IsEmpty (Reply.Flag result) }
    {
        self.next.is_empty()
    }

    /// Whether a bounded channel's queue is at or past its capacity.
    pub fn is_full(&self) -> bool
        ensures made { HasReplied {T = T} {A = A} Step.IsFull (Reply.Flag result) }
    {
        self.next.is_full()
    }

    /// How many messages are queued.
    pub fn len(&self) -> usize
        ensures made { HasReplied {T = T} {A = A} Step.Len (Reply.Number result) }
    {
        self.next.len()
    }

    /// The capacity, or `None` if unbounded.
    pub fn capacity(&self) -> Option<usize>
        ensures made { HasReplied {T = T} {A = A} Step.Capacity (Reply.Capacity result) }
    {
        self.next.capacity()
    }

    /// Whether the channel is disconnected and no message is queued.
    pub fn is_terminated(&self) -> bool
        ensures made { IsTerminated T A result }
    {
        self.next.is_terminated()
    }

    /// Whether both receive from channels of the same number.
    pub fn same_channel(&self, other: &Self) -> bool
        ensures same { result
            ≡ (end_of self.now.next.receiver == end_of other.now.next.receiver) }
    {
        self.next
            .receiver
            .get()
            .same_channel(other.next.receiver.get())
    }
}

impl<T: Drop, R: Waits, A: Allocator + Copy> Stream for RecvStream<'_, T, R, A> {
    type Item = T;

    ghost can_poll = { λ _. ⊤ };

    ghost yields = { λ _ _ _. ⊤ };

    ghost needs = { λ stream source. source ≡ stream.next.task.source.id };

    #[inline(always)]
    fn poll_next(&mut self, cx: &mut Context<'_>) -> Poll<Option<T>>
        ensures value { IfReady result (λ _. ⊤) }
        ensures rest { IfReady result (λ item. IfSome item
            (λ message. After (λ _ _. ⊤) message (λ _ _. ⊤))) }
        ensures goes { IfReady result (λ item. OnSome item ⊤) }
        ensures again { OnPending result ⊤ }
        ensures same { OnPending result (Within {A = T} (λ _ _. ⊤) (λ _ _. ⊤)) }
        ensures registered { OnPending result
            (Covers cx.new (λ source. source ≡ self.new.next.task.source.id)) }
        ensures kept { Keeps cx.old cx.new }
        ensures polled { HasPolledReceive A self.old.next.call self.new.next.call
            (answer_of_item result self.new.fault) }
        ensures call { LeavesCall self.old.next.call self.new.next.call
            (answer_of_item result self.new.fault) }
        ensures receiver { self.new.next.receiver ≡ self.old.next.receiver }
        ensures fault { self.new.fault ≡ true → result ≡ Poll.Ready None }
    {
        self.fault = false;
        match self.next.poll(cx) {
            Poll::Ready(answer) => {
                let (item, fault) = as_item(answer);
                self.fault = fault;
                Poll::Ready(item)
            }
            Poll::Pending => Poll::Pending,
        }
    }
}

impl<T: Drop, R: Waits, A: Allocator + Copy> Clone for RecvStream<'_, T, R, A> {
    ghost is_clone = { λ stream copy.
        (end_of copy.next.receiver ≡ end_of stream.next.receiver)
        × (copy.next.call ≡ record { kind = Stream; call = None }) × (copy.fault ≡ false) };

    fn clone(&self) -> Result<Self, AllocError> {
        Ok(RecvStream::new(self.next.receiver.clone()?))
    }
}

impl<T: Drop, R: Waits, A: Allocator + Copy> fmt::Debug for RecvStream<'_, T, R, A> {
    fn fmt<W: fmt::Write>(&self, f: &mut fmt::Formatter<W>) -> fmt::Result {
        f.write_str("RecvStream")
    }
}
