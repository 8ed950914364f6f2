//! The receivers of a channel.
ghost use Rattle.std.specs.Prelude.{◌≡◌, ◌≢◌, ℕ, ◌==◌, IfOk, Err, length};
ghost use Rattle.flume_model.specs.Entries.{waiting_count};
ghost use Rattle.flume_model.specs.Line.{blocked};
ghost use Rattle.flume_model.specs.Parked.{entries};
ghost use Rattle.flume_calls.specs.ReceiveTurns.{after_try_recv};
ghost use Rattle.flume_calls.specs.Singles.{after_set_capacity};
ghost use Rattle.flume_deadline.specs.declared.Deadline.{Deadline};
ghost use Rattle.flume_deadline.specs.Deadlines.{IsAfter};
ghost use Rattle.flume.specs.CallSteps.{HasReplied};
ghost use Rattle.flume.specs.CallSteps as answer;
ghost use Rattle.flume.specs.GateSteps.{Receives};
ghost use Rattle.flume.specs.Iterators.{after_drain};
ghost use Rattle.flume.specs.LockedTurns.{HasCounted, HasDescribed, HasMade};
ghost use Rattle.flume.specs.Iterators.{new_iter};

use crate::drain::Drain;
use crate::iterators::{Iter, TryIter};
use crate::shared::{Shared, Waits};
use crate::signal::Signal;
use flume_calls::description::Description;
use flume_calls::single::{CountQuery, EndStep, FlagQuery};
use flume_core::error::{CapacityError, NoMemory, RecvError, RecvTimeoutError, TryRecvError};
use flume_deadline::Deadline;
use flume_keeper::{Keeper, NoParty, NoTrace};
use flume_model::step::{Reply, Step};
use std::alloc::{AllocError, Allocator, Global};
use std::fmt;
use std::marker::Model;
use std::sync::Arc;
use std::time::{Duration, Instant};

/// Receives messages of a channel, as its clones do: each goes to one of them. The channel closes
/// with the last: blocked senders get their messages back, and what is queued stays until no sender
/// lives either. An error takes no message. `Disconnected`: none is there, and no sender lives.
pub struct Receiver<T, R, A = Global, K = NoTrace>
where
    R: Waits,
    A: Allocator + Copy,
    K: Keeper<T, A>,
{
    shared: Arc<Shared<T, R, A, K>, A>,
}

impl<T, R: Waits, A: Allocator + Copy, K: Keeper<T, A>> Model for Receiver<T, R, A, K> {
    ghost Value = { ℕ };

    ghost view = { λ receiver. receiver.shared.value.id };
}

impl<T: Drop, R: Waits, A: Allocator + Copy> Receiver<T, R, A> {
    /// Takes the next message, and doesn't wait. `Empty`: none is there.
    /// ```
    /// let (tx, rx) = flume::on(rt).unbounded()?;
    /// assert_eq!(rt; rx.try_recv(), Err(TryRecvError::Empty));
    /// tx.send(42)?;
    /// assert_eq!(rt; rx.try_recv(), Ok(42));
    /// drop(tx);
    /// assert_eq!(rt; rx.try_recv(), Err(TryRecvError::Disconnected));
    /// ```
    pub fn try_recv(&self) -> Result<T, TryRecvError>
        ensures made { HasMade {A = A} Step.TryRecv after_try_recv
            (answer.try_receive_as_turn result) }
        ensures never_no_memory { result ≢ Err TryRecvError.NoMemory }
    {
        self.try_recv_as(&mut NoParty)
    }

    /// Takes the next message, and waits while there is none. `NoMemory`: no memory to wait.
    /// ```
    /// let (tx, rx) = flume::on(rt).unbounded()?;
    /// tx.send(42)?;
    /// assert_eq!(rt; rx.recv(), Ok(42));
    /// drop(tx);
    /// assert_eq!(rt; rx.recv(), Err(RecvError::Disconnected));
    /// ```
    pub fn recv(&self) -> Result<T, RecvError>
        ensures made { Receives A Deadline.Never (answer.receive_as_timed result) }
    {
        self.recv_as(&mut NoParty)
    }

    /// As `recv`, waiting up to the deadline. `Timeout`: it is reached, or the clock can't be read,
    /// and the channel is open. A message that is there is taken even after the deadline.
    /// ```
    /// let (_tx, rx) = flume::on(rt).unbounded::<u64>()?;
    /// let now = Instant::now(&rt)?;
    /// assert_eq!(rt; rx.recv_deadline(now), Err(RecvTimeoutError::Timeout));
    /// ```
    pub fn recv_deadline(&self, deadline: Instant) -> Result<T, RecvTimeoutError>
        ensures made { Receives A (Deadline.At deadline) result }
    {
        self.recv_until(&mut NoParty, Deadline::At(deadline))
    }

    /// As `recv_deadline`, so long from now; as `recv`, if no time of the clock is that late.
    pub fn recv_timeout(&self, timeout: Duration) -> Result<T, RecvTimeoutError>
        ensures made { (deadline : Deadline) × IsAfter timeout deadline
            × Receives A deadline result }
    {
        let deadline = Deadline::after(&self.shared.rt, timeout);
        self.recv_until(&mut NoParty, deadline)
    }

    /// The messages, one after the other. It waits for each, and ends if `recv` fails. That a `for`
    /// over them ends is proved only by a count of 2^64 - 1 calls of `next`, after which it hangs.
    pub fn iter(&self) -> Iter<'_, T, R, A>
        ensures new { result ≡ new_iter self.now }
    {
        Iter::new(self, NoParty)
    }

    /// The messages that are there, one after the other.
    /// ```
    /// let (tx, rx) = flume::on(rt).unbounded()?;
    /// tx.send(1)?;
    /// tx.send(2)?;
    /// let mut messages = rx.try_iter();
    /// assert_eq!(rt; messages.next(), Some(1));
    /// assert_eq!(rt; messages.next(), Some(2));
    /// assert_eq!(rt; messages.next(), None);
    /// ```
    pub fn try_iter(&self) -> TryIter<'_, T, R, A>
        ensures new { result ≡ new_iter self.now }
    {
        TryIter::new(self, NoParty)
    }

    /// Takes all queued messages in order; then lets blocked sends in. `NoMemory`: none for a list.
    /// ```
    /// let (tx, rx) = flume::on(rt).unbounded()?;
    /// tx.send(1)?;
    /// tx.send(2)?;
    /// let mut messages = rx.drain()?;
    /// assert_eq!(rt; messages.len(), 2);
    /// assert_eq!(rt; messages.next(), Some(1));
    /// assert_eq!(rt; rx.len(), 0);
    /// ```
    pub fn drain(&self) -> Result<Drain<'_, T, A>, NoMemory>
        ensures made { HasMade {A = A} Step.Drain after_drain result }
    {
        self.drain_as(&mut NoParty)
    }

    /// As `Sender::set_capacity`.
    pub fn set_capacity(&self, capacity: usize) -> Result<(), CapacityError>
        ensures made { HasMade {T = T} {A = A} (Step.SetCapacity capacity)
            after_set_capacity result }
    {
        self.shared.set_capacity(&mut NoParty, capacity)
    }
}

impl<T: Drop, R: Waits, A: Allocator + Copy, K: Keeper<T, A>> Receiver<T, R, A, K> {
    pub(crate) fn from_shared(shared: Arc<Shared<T, R, A, K>, A>) -> Self
        ensures number { result ≡ shared.value.id }
    {
        Receiver { shared }
    }

    #[inline(always)]
    pub(crate) fn shared(&self) -> &Shared<T, R, A, K> {
        &self.shared
    }

    /// How many messages are queued.
    pub fn len(&self) -> usize
        ensures made { HasReplied {T = T} {A = A} Step.Len (Reply.Number result) }
    {
        self.shared.number(CountQuery::Len)
    }

    /// Whether no message is queued.
    pub fn is_empty(&self) -> bool
        ensures made { HasReplied {T = T} {A = A} Step.IsEmpty (Reply.Flag result) }
    {
        self.shared.flag(FlagQuery::IsEmpty)
    }

    /// Whether a bounded channel's queue is at or past its capacity.
    pub fn is_full(&self) -> bool
        ensures made { HasReplied {T = T} {A = A} Step.IsFull (Reply.Flag result) }
    {
        self.shared.flag(FlagQuery::IsFull)
    }

    /// The capacity, or `None` if unbounded.
    pub fn capacity(&self) -> Option<usize>
        ensures made { HasReplied {T = T} {A = A} Step.Capacity (Reply.Capacity result) }
    {
        self.shared.capacity()
    }

    /// How many senders live.
    pub fn sender_count(&self) -> usize
        ensures made { HasReplied {T = T} {A = A} Step.SenderCount (Reply.Number result) }
    {
        self.shared.number(CountQuery::SenderCount)
    }

    /// How many receivers live.
    pub fn receiver_count(&self) -> usize
        ensures made { HasReplied {T = T} {A = A} Step.ReceiverCount (Reply.Number result) }
    {
        self.shared.number(CountQuery::ReceiverCount)
    }

    /// Whether all receivers, or all senders, have been dropped.
    pub fn is_disconnected(&self) -> bool
        ensures made { HasReplied {T = T} {A = A} Step.IsDisconnected (Reply.Flag result) }
    {
        self.shared.flag(FlagQuery::IsDisconnected)
    }

    /// Whether both receive from channels of the same number.
    pub fn same_channel(&self, other: &Receiver<T, R, A, K>) -> bool
        ensures same { result ≡ (self.now == other.now) }
    {
        self.shared.id == other.shared.id
    }

    /// How many sends are blocked: calls, polled futures and sinks, and arms of selections. One
    /// whose channel closed counts until it has its message back.
    /// ```
    /// let (tx, rx) = flume::on(rt).bounded::<u64>(0)?;
    /// let sender = thread::spawn(&rt, move || tx.send(7))?;
    /// for _ in rt.forever() {
    ///     if rx.blocked_senders() == 1 {
    ///         break;
    ///     }
    ///     thread::yield_now();
    /// }
    /// assert_eq!(rt; rx.try_recv(), Ok(7));
    /// assert_eq!(rt; rx.blocked_senders(), 0);
    /// assert_eq!(rt; sender.join(&rt), Ok(()));
    /// ```
    pub fn blocked_senders(&self) -> usize
        ensures counted { HasCounted T A (λ opening log. length (blocked opening log)) result }
    {
        self.shared.blocked_len()
    }

    /// As `Sender::waiting_receivers`.
    pub fn waiting_receivers(&self) -> usize
        ensures counted { HasCounted T A (λ opening log. waiting_count (entries opening log))
            result }
    {
        self.shared.waiting_len()
    }

    /// As `Sender::describe`.
    pub fn describe(&self) -> Description
        ensures described { HasDescribed T A result }
    {
        self.shared.describe()
    }
}

impl<T: Drop, R: Waits, A: Allocator + Copy, K: Keeper<T, A>> Clone for Receiver<T, R, A, K> {
    ghost is_clone = { λ receiver copy. copy ≡ receiver };

    fn clone(&self) -> Result<Self, AllocError>
        ensures same { IfOk result (λ copy. copy ≡ self.now) }
        ensures made { IfOk result (λ _. HasReplied {T = T} {A = A} Step.CloneReceiver Reply.Done) }
    {
        let shared = Arc::try_clone(&self.shared)?;
        match shared.end_step(EndStep::CloneReceiver) {
            Reply::Done => Ok(Receiver { shared }),
            _ => Err(AllocError),
        }
    }
}

impl<T: Drop, R: Waits, A: Allocator + Copy, K: Keeper<T, A>> fmt::Debug for Receiver<T, R, A, K> {
    fn fmt<W: fmt::Write>(&self, f: &mut fmt::Formatter<W>) -> fmt::Result {
        f.write_str("Receiver")
    }
}

impl<T: Drop, R: Waits, A: Allocator + Copy, K: Keeper<T, A>> Drop for Receiver<T, R, A, K> {
    fn drop(self) {
        let Self { shared } = self;
        shared.end_step(EndStep::DropReceiver);
    }
}
