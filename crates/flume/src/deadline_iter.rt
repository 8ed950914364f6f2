//! The iterator over received messages that ends at a deadline.
ghost use Rattle.std.specs.Prelude.{◌≡◌, ◌≢◌, ◌↔◌, IsTrue, Some, None, Err};
ghost use Rattle.std.specs.Iterator.{at_most};
ghost use Rattle.flume_deadline.specs.declared.Deadline.{Deadline};
ghost use Rattle.flume_deadline.specs.declared.Deadline.TheVariants.{At, Never};
ghost use Rattle.flume_deadline.specs.Deadlines.{IsAfter, CanBeAhead};
ghost use Rattle.flume.specs.GateSteps.{Receives};
ghost use Rattle.flume.specs.Iterators.{new_deadline_iter, new_deadline_iter_by};
ghost use Rattle.flume.specs.Iterators.{IsNextInTime};
ghost use Rattle.flume.specs.PartyIterators.{ReceivesItemUntil, ReceivesUntil, IsTracedNextInTime};
ghost use Rattle.flume.specs.PartySteps.{ReceivesOf};

use crate::iterators::show;
use crate::progress::Progress;
use crate::receiver::Receiver;
use crate::shared::Waits;
use crate::traced::{ChannelName, ChannelParty, Traced};
use flume_core::error::RecvTimeoutError;
use flume_deadline::Deadline;
use flume_keeper::{Keeper, NoParty, NoTrace};
use std::alloc::{Allocator, Global};
use std::fmt;
use std::marker::Model;
use std::time::{Duration, Instant};

/// The messages of a receiver up to a deadline. After a `None`, `ended` says why. A clock that
/// can't be read counts as past it.
/// ```
/// let (tx, rx) = flume::on(rt).unbounded()?;
/// tx.send(42)?;
/// let mut messages = rx.iter_timeout(Duration::from_millis(20));
/// let mut last = 0;
/// for message in messages.by_ref() {
///     last = message;
/// }
/// assert_eq!(rt; last, 42);
/// assert_eq!(rt; messages.ended(), Err(RecvTimeoutError::Timeout));
/// ```
#[derive(Drop)]
pub struct DeadlineIter<'a, T, R, A = Global, K = NoTrace>
where
    R: Waits,
    A: Allocator + Copy,
    K: Keeper<T, A>,
{
    receiver: &'a Receiver<T, R, A, K>,
    deadline: Deadline,
    progress: Progress,
    end: Option<RecvTimeoutError>,
    me: K::Party,
}

impl<'a, T, R: Waits, A: Allocator + Copy, K: Keeper<T, A>> Model for DeadlineIter<'a, T, R, A, K> {
    ghost use Rattle.flume.specs.Iterators.{DeadlineIterValue};

    ghost Value = { DeadlineIterValue K.Party };

    ghost view = { λ it. record {
      channel = it.receiver.now;
      deadline = it.deadline;
      end = it.end;
      calls_left = it.progress.calls_left;
      party = it.me;
    } };
}

impl<T: Drop, R: Waits, A: Allocator + Copy> Receiver<T, R, A> {
    /// As `iter`, up to the deadline; messages that are left then stay in the channel.
    /// ```
    /// let (tx, rx) = flume::on(rt).unbounded()?;
    /// tx.send(42)?;
    /// let now = Instant::now(&rt)?;
    /// assert_eq!(rt; rx.iter_deadline(now).next(), None);
    /// assert_eq!(rt; rx.try_recv(), Ok(42));
    /// ```
    pub fn iter_deadline(&self, deadline: Instant) -> DeadlineIter<'_, T, R, A>
        ensures new { result ≡ new_deadline_iter self.now (At deadline) }
    {
        DeadlineIter::new(self, NoParty, Deadline::At(deadline))
    }

    /// As `iter_deadline`, so long from now; as `iter`, if no time of the clock is that late.
    pub fn iter_timeout(&self, timeout: Duration) -> DeadlineIter<'_, T, R, A>
        ensures new { (deadline : Deadline) × IsAfter timeout deadline
            × (result ≡ new_deadline_iter self.now deadline) }
    {
        DeadlineIter::new(self, NoParty, Deadline::after(&self.shared().rt, timeout))
    }
}

impl<T: Drop, R: Waits, A: Allocator + Copy, J: ChannelName> Receiver<T, R, A, Traced<T, A, J>> {
    /// As of a receiver without a trace. The iterator has the party, as that of `iter`.
    pub fn iter_deadline(
        &self,
        me: ChannelParty<T, J, A>,
        deadline: Instant,
    ) -> DeadlineIter<'_, T, R, A, Traced<T, A, J>>
        ensures new { result ≡ new_deadline_iter_by me self.now (At deadline) }
    {
        DeadlineIter::new(self, me, Deadline::At(deadline))
    }

    /// As of a receiver without a trace. The iterator has the party, as that of `iter`.
    pub fn iter_timeout(
        &self,
        me: ChannelParty<T, J, A>,
        timeout: Duration,
    ) -> DeadlineIter<'_, T, R, A, Traced<T, A, J>>
        ensures new { (deadline : Deadline) × IsAfter timeout deadline
            × (result ≡ new_deadline_iter_by me self.now deadline) }
    {
        DeadlineIter::new(self, me, Deadline::after(&self.shared().rt, timeout))
    }
}

impl<'a, T: Drop, R: Waits, A: Allocator + Copy, K: Keeper<T, A>> DeadlineIter<'a, T, R, A, K> {
    fn new(receiver: &'a Receiver<T, R, A, K>, me: K::Party, deadline: Deadline) -> Self
        ensures new { result ≡ new_deadline_iter_by me receiver.now deadline }
    {
        DeadlineIter {
            receiver,
            deadline,
            progress: Progress::new(),
            end: None,
            me,
        }
    }

    #[inline(always)]
    fn next_as(&mut self) -> Option<T>
        ensures next { IsNextInTime A self.old result self.new }
        ensures did { ReceivesItemUntil (ReceivesOf K.did) self.old result self.new }
    {
        self.progress.count(&self.receiver.shared().rt);
        match receive(self.receiver, &mut self.me, self.deadline) {
            Ok(message) => {
                self.end = None;
                Some(message)
            }
            Err(end) => {
                self.end = Some(end);
                None
            }
        }
    }

    /// Why the last `next` gave nothing. `Ok`: it gave a message, or all senders had been dropped.
    /// ```
    /// let (_tx, rx) = flume::on(rt).unbounded::<u64>()?;
    /// let mut messages = rx.iter_timeout(Duration::ZERO);
    /// assert_eq!(rt; messages.next(), None);
    /// assert_eq!(rt; messages.ended(), Err(RecvTimeoutError::Timeout));
    /// ```
    pub fn ended(&self) -> Result<(), RecvTimeoutError>
        ensures timeout { (result ≡ Err RecvTimeoutError.Timeout)
            ↔ (self.now.end ≡ Some RecvTimeoutError.Timeout) }
        ensures no_memory { (result ≡ Err RecvTimeoutError.NoMemory)
            ↔ (self.now.end ≡ Some RecvTimeoutError.NoMemory) }
        ensures never_disconnected { result ≢ Err RecvTimeoutError.Disconnected }
    {
        match self.end {
            None | Some(RecvTimeoutError::Disconnected) => Ok(()),
            Some(end) => Err(end),
        }
    }

    /// Whether `ended` says `NoMemory`.
    pub fn fault(&self) -> bool
        ensures fault { IsTrue result ↔ (self.now.end ≡ Some RecvTimeoutError.NoMemory) }
    {
        self.end == Some(RecvTimeoutError::NoMemory)
    }
}

fn receive<T: Drop, R: Waits, A: Allocator + Copy, K: Keeper<T, A>>(
    receiver: &Receiver<T, R, A, K>,
    me: &mut K::Party,
    deadline: Deadline,
) -> Result<T, RecvTimeoutError>
    ensures has_deadline { result ≡ Err RecvTimeoutError.Timeout → deadline ≢ Never }
    ensures ahead { result ≢ Err RecvTimeoutError.Timeout → CanBeAhead deadline }
    ensures made { result ≢ Err RecvTimeoutError.Timeout → Receives A deadline result }
    ensures did { ReceivesUntil (ReceivesOf K.did) me.old me.new result }
{
    let rt = &receiver.shared().rt;
    if deadline.is_reached(rt) {
        return Err(RecvTimeoutError::Timeout);
    }
    receiver.recv_until(me, deadline)
}

impl<'a, T: Drop, R: Waits, A: Allocator + Copy> Iterator for DeadlineIter<'a, T, R, A> {
    type Item = T;

    ghost next_gives = { IsNextInTime A };

    ghost remaining = { λ it. at_most it.calls_left };

    fn next(&mut self) -> Option<T> {
        self.next_as()
    }
}

impl<'a, T: Drop, R: Waits, A: Allocator + Copy, J: ChannelName> Iterator
    for DeadlineIter<'a, T, R, A, Traced<T, A, J>> {
    type Item = T;

    ghost next_gives = { IsTracedNextInTime };

    ghost remaining = { λ it. at_most it.calls_left };

    fn next(&mut self) -> Option<T> {
        self.next_as()
    }
}

impl<'a, T: Drop, R: Waits, A: Allocator + Copy, J: ChannelName> DeadlineIter<
    'a,
    T,
    R,
    A,
    Traced<T, A, J>,
> {
    /// As `Iter::into_party`.
    pub fn into_party(self) -> ChannelParty<T, J, A>
        ensures party { result ≡ self.entry.party }
    {
        self.me
    }
}

impl<'a, T: Drop, R: Waits, A: Allocator + Copy, K: Keeper<T, A>> fmt::Debug
    for DeadlineIter<'a, T, R, A, K> {
    fn fmt<W: fmt::Write>(&self, f: &mut fmt::Formatter<W>) -> fmt::Result {
        show(f, "DeadlineIter", self.receiver)
    }
}
