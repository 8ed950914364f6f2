//! The senders of a channel.
ghost use Rattle.std.specs.Prelude.{◌≡◌, ℕ, ◌==◌, IfOk, Err, length};
ghost use Rattle.flume_model.specs.Entries.{waiting_count};
ghost use Rattle.flume_model.specs.Line.{blocked};
ghost use Rattle.flume_model.specs.Parked.{entries};
ghost use Rattle.flume_calls.specs.SendTurns.{after_try_send};
ghost use Rattle.flume_calls.specs.Singles.{after_set_capacity};
ghost use Rattle.flume_deadline.specs.declared.Deadline.{Deadline};
ghost use Rattle.flume_deadline.specs.Deadlines.{IsAfter};
ghost use Rattle.flume.specs.CallSteps.{HasReplied};
ghost use Rattle.flume.specs.CallSteps as answer;
ghost use Rattle.flume.specs.GateSteps.{Sends};
ghost use Rattle.flume.specs.LockedTurns.{HasCounted, HasDescribed, HasMade};

use crate::shared::{Shared, Waits};
use crate::signal::Signal;
use crate::weak::WeakSender;
use flume_calls::description::Description;
use flume_calls::single::{CountQuery, EndStep, FlagQuery};
use flume_core::error::{CapacityError, NoMemory, SendError, SendTimeoutError, TrySendError};
use flume_deadline::Deadline;
use flume_keeper::{Keeper, NoParty, NoTrace};
use flume_model::step::{Reply, Step};
use std::alloc::{AllocError, Allocator, Global};
use std::fmt;
use std::marker::Model;
use std::sync::Arc;
use std::time::{Duration, Instant};

/// Sends messages into a channel, as its clones do. The channel closes with the last of them: what
/// is queued is still received. An error has what wasn't taken in. `Disconnected`: no receiver
/// lives. What is left after all ends is dropped under the channel's lock: a message whose `drop`
/// upgrades a `WeakSender` of it would wait for itself. One that holds an end of it prevents that.
pub struct Sender<T, R, A = Global, K = NoTrace>
where
    R: Waits,
    A: Allocator + Copy,
    K: Keeper<T, A>,
{
    shared: Arc<Shared<T, R, A, K>, A>,
}

impl<T, R: Waits, A: Allocator + Copy, K: Keeper<T, A>> Model for Sender<T, R, A, K> {
    ghost Value = { ℕ };

    ghost view = { λ sender. sender.shared.value.id };
}

impl<T: Drop, R: Waits, A: Allocator + Copy> Sender<T, R, A> {
    /// Sends a message, and doesn't wait. `Full`: the channel is full, and no receiver waits.
    /// ```
    /// let (tx, rx) = flume::on(rt).bounded(1)?;
    /// assert_eq!(rt; tx.try_send(1), Ok(()));
    /// assert_eq!(rt; tx.try_send(2), Err(TrySendError::Full(2)));
    /// drop(rx);
    /// assert_eq!(rt; tx.try_send(3), Err(TrySendError::Disconnected(3)));
    /// ```
    pub fn try_send(&self, message: T) -> Result<(), TrySendError<T>>
        ensures made { HasMade {A = A} (Step.TrySend message) after_try_send
            (answer.try_send_as_turn result) }
        ensures full { (back : T) → result ≡ Err (TrySendError.Full back) → back ≡ message }
        ensures disconnected { (back : T) → result ≡ Err (TrySendError.Disconnected back)
            → back ≡ message }
        ensures no_memory { (back : T) → result ≡ Err (TrySendError.NoMemory back)
            → back ≡ message }
    {
        self.try_send_as(&mut NoParty, message)
    }

    /// Sends a message, and waits while the channel is full.
    /// ```
    /// let (tx, rx) = flume::on(rt).unbounded()?;
    /// assert_eq!(rt; tx.send(42), Ok(()));
    /// drop(rx);
    /// assert_eq!(rt; tx.send(43), Err(SendError::Disconnected(43)));
    /// ```
    pub fn send(&self, message: T) -> Result<(), SendError<T>>
        ensures made { Sends A Deadline.Never message (answer.send_as_timed result) }
        ensures no_memory { (back : T) → result ≡ Err (SendError.NoMemory back) → back ≡ message }
    {
        self.send_as(&mut NoParty, message)
    }

    /// As `send`, waiting up to the deadline. `Timeout`: it is reached, or the clock can't be read,
    /// and the channel is open. If it isn't full, the message is sent even after the deadline.
    /// ```
    /// let (tx, _rx) = flume::on(rt).bounded(1)?;
    /// let now = Instant::now(&rt)?;
    /// assert_eq!(rt; tx.send_deadline(1, now), Ok(()));
    /// let late = tx.send_deadline(2, now);
    /// assert_eq!(rt; late, Err(SendTimeoutError::Timeout(2)));
    /// ```
    pub fn send_deadline(&self, message: T, deadline: Instant) -> Result<(), SendTimeoutError<T>>
        ensures made { Sends A (Deadline.At deadline) message result }
        ensures no_memory { (back : T) → result ≡ Err (SendTimeoutError.NoMemory back)
            → back ≡ message }
    {
        self.send_until(&mut NoParty, message, Deadline::At(deadline))
    }

    /// As `send_deadline`, so long from now; as `send`, if no time of the clock is that late.
    pub fn send_timeout(&self, message: T, timeout: Duration) -> Result<(), SendTimeoutError<T>>
        ensures made { (deadline : Deadline) × IsAfter timeout deadline
            × Sends A deadline message result }
        ensures no_memory { (back : T) → result ≡ Err (SendTimeoutError.NoMemory back)
            → back ≡ message }
    {
        let deadline = Deadline::after(&self.shared.rt, timeout);
        self.send_until(&mut NoParty, message, deadline)
    }

    /// Sets the capacity; an error changes nothing. A greater one lets blocked sends in as far as
    /// there is room; a smaller one drops nothing. Wakes no receiver. Doesn't allocate.
    /// ```
    /// let (tx, _rx) = flume::on(rt).bounded(1)?;
    /// assert_eq!(rt; tx.try_send(1), Ok(()));
    /// assert_eq!(rt; tx.set_capacity(2), Ok(()));
    /// assert_eq!(rt; tx.try_send(2), Ok(()));
    /// assert_eq!(rt; tx.capacity(), Some(2));
    /// ```
    pub fn set_capacity(&self, capacity: usize) -> Result<(), CapacityError>
        ensures made { HasMade {T = T} {A = A} (Step.SetCapacity capacity)
            after_set_capacity result }
    {
        self.shared.set_capacity(&mut NoParty, capacity)
    }
}

impl<T: Drop, R: Waits, A: Allocator + Copy, K: Keeper<T, A>> Sender<T, R, A, K> {
    pub(crate) fn from_shared(shared: Arc<Shared<T, R, A, K>, A>) -> Self
        ensures number { result ≡ shared.value.id }
    {
        Sender { shared }
    }

    #[inline(always)]
    pub(crate) fn shared(&self) -> &Shared<T, R, A, K> {
        &self.shared
    }

    /// How many messages are queued.
    pub fn len(&self) -> usize
        ensures made { HasReplied {T = T} {A = A} Step.Len (Reply.Number result) }
    {
        self.shared.number(CountQuery::Len)
    }

    /// Whether no message is queued.
    pub fn is_empty(&self) -> bool
        ensures made { HasReplied {T = T} {A = A} Step.IsEmpty (Reply.Flag result) }
    {
        self.shared.flag(FlagQuery::IsEmpty)
    }

    /// Whether a bounded channel's queue is at or past its capacity.
    pub fn is_full(&self) -> bool
        ensures made { HasReplied {T = T} {A = A} Step.IsFull (Reply.Flag result) }
    {
        self.shared.flag(FlagQuery::IsFull)
    }

    /// The capacity, or `None` if unbounded.
    pub fn capacity(&self) -> Option<usize>
        ensures made { HasReplied {T = T} {A = A} Step.Capacity (Reply.Capacity result) }
    {
        self.shared.capacity()
    }

    /// How many senders live.
    pub fn sender_count(&self) -> usize
        ensures made { HasReplied {T = T} {A = A} Step.SenderCount (Reply.Number result) }
    {
        self.shared.number(CountQuery::SenderCount)
    }

    /// How many receivers live.
    pub fn receiver_count(&self) -> usize
        ensures made { HasReplied {T = T} {A = A} Step.ReceiverCount (Reply.Number result) }
    {
        self.shared.number(CountQuery::ReceiverCount)
    }

    /// Whether all receivers, or all senders, have been dropped.
    pub fn is_disconnected(&self) -> bool
        ensures made { HasReplied {T = T} {A = A} Step.IsDisconnected (Reply.Flag result) }
    {
        self.shared.flag(FlagQuery::IsDisconnected)
    }

    /// A sender that doesn't keep the channel open. `NoMemory`: no more ends can be counted.
    /// ```
    /// let (tx, _rx) = flume::on(rt).unbounded::<u64>()?;
    /// let weak = tx.downgrade()?;
    /// assert!(rt; weak.upgrade()?.is_some());
    /// drop(tx);
    /// assert!(rt; weak.upgrade()?.is_none());
    /// ```
    pub fn downgrade(&self) -> Result<WeakSender<T, R, A, K>, NoMemory>
        ensures same { IfOk result (λ weak. weak ≡ self.now) }
    {
        Ok(WeakSender::from_shared(Arc::try_clone(&self.shared)?))
    }

    /// Whether both send into channels of the same number.
    pub fn same_channel(&self, other: &Sender<T, R, A, K>) -> bool
        ensures same { result ≡ (self.now == other.now) }
    {
        self.shared.id == other.shared.id
    }

    /// As `Receiver::blocked_senders`.
    pub fn blocked_senders(&self) -> usize
        ensures counted { HasCounted T A (λ opening log. length (blocked opening log)) result }
    {
        self.shared.blocked_len()
    }

    /// How many receives wait, and weren't woken or handed a message: calls, polled futures and
    /// streams, and arms of selections.
    pub fn waiting_receivers(&self) -> usize
        ensures counted { HasCounted T A (λ opening log. waiting_count (entries opening log))
            result }
    {
        self.shared.waiting_len()
    }

    /// What the channel holds and who uses it, at one moment. Doesn't allocate.
    /// ```
    /// let (tx, _rx) = flume::on(rt).bounded(4)?;
    /// tx.send(7)?;
    /// let description = tx.describe();
    /// assert_eq!(rt; (description.len, description.capacity), (1, Some(4)));
    /// assert_eq!(rt; (description.sender_count, description.receiver_count), (1, 1));
    /// ```
    pub fn describe(&self) -> Description
        ensures described { HasDescribed T A result }
    {
        self.shared.describe()
    }
}

impl<T: Drop, R: Waits, A: Allocator + Copy, K: Keeper<T, A>> Clone for Sender<T, R, A, K> {
    ghost is_clone = { λ sender copy. copy ≡ sender };

    fn clone(&self) -> Result<Self, AllocError>
        ensures same { IfOk result (λ copy. copy ≡ self.now) }
        ensures made { IfOk result (λ _. HasReplied {T = T} {A = A} Step.CloneSender Reply.Done) }
    {
        let shared = Arc::try_clone(&self.shared)?;
        match shared.end_step(EndStep::CloneSender) {
            Reply::Done => Ok(Sender { shared }),
            _ => Err(AllocError),
        }
    }
}

impl<T: Drop, R: Waits, A: Allocator + Copy, K: Keeper<T, A>> fmt::Debug for Sender<T, R, A, K> {
    fn fmt<W: fmt::Write>(&self, f: &mut fmt::Formatter<W>) -> fmt::Result {
        f.write_str("Sender")
    }
}

impl<T: Drop, R: Waits, A: Allocator + Copy, K: Keeper<T, A>> Drop for Sender<T, R, A, K> {
    fn drop(self) {
        let Self { shared } = self;
        shared.end_step(EndStep::DropSender);
    }
}
