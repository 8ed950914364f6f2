//! Iterators that borrow their receiver.
ghost use Rattle.std.specs.Prelude.{◌≡◌, ◌↔◌, true, false, IsErr};
ghost use Rattle.std.specs.Iterator.{at_most};
ghost use Rattle.flume.specs.Iterators.{new_iter, new_iter_by, IsNext, IsTryNext};
ghost use Rattle.flume.specs.PartyIterators.{IsTracedNext, IsTracedTryNext};

use crate::progress::Progress;
use crate::receiver::Receiver;
use crate::shared::Waits;
use crate::traced::{ChannelName, ChannelParty, Traced};
use flume_core::error::NoMemory;
use flume_keeper::{Keeper, NoParty, NoTrace};
use std::alloc::{Allocator, Global};
use std::fmt;
use std::marker::Model;

/// The messages of a receiver, one after the other; it waits for each. `None`: there are no more,
/// and all senders have been dropped; or, if `fault` is true, there was no memory to wait.
/// ```
/// let (tx, rx) = flume::on(rt).unbounded()?;
/// tx.send(42)?;
/// drop(tx);
/// let mut last = 0;
/// for message in &rx {
///     last = message;
/// }
/// assert_eq!(rt; last, 42);
/// ```
#[derive(Drop)]
pub struct Iter<'a, T, R, A = Global, K = NoTrace>
where
    R: Waits,
    A: Allocator + Copy,
    K: Keeper<T, A>,
{
    receiver: &'a Receiver<T, R, A, K>,
    progress: Progress,
    me: K::Party,
}

impl<'a, T, R: Waits, A: Allocator + Copy, K: Keeper<T, A>> Model for Iter<'a, T, R, A, K> {
    ghost use Rattle.flume.specs.Iterators.{IterValue};

    ghost Value = { IterValue K.Party };

    ghost view = { λ it. record {
      channel = it.receiver.now;
      fault = it.progress.fault;
      calls_left = it.progress.calls_left;
      party = it.me;
    } };
}

impl<'a, T: Drop, R: Waits, A: Allocator + Copy, K: Keeper<T, A>> Iter<'a, T, R, A, K> {
    pub(crate) fn new(receiver: &'a Receiver<T, R, A, K>, me: K::Party) -> Self
        ensures new { result ≡ new_iter_by me receiver.now }
    {
        Iter {
            receiver,
            progress: Progress::new(),
            me,
        }
    }

    /// Whether the last `next` ended because memory ran out: then more may come. An adapter hides
    /// this: lend it the iterator, as in `messages.by_ref().take(10)`.
    /// ```
    /// let (tx, rx) = flume::on(rt).unbounded::<u64>()?;
    /// drop(tx);
    /// let mut messages = rx.iter();
    /// assert_eq!(rt; messages.next(), None);
    /// assert!(rt; !messages.fault());
    /// ```
    pub fn fault(&self) -> bool
        ensures fault { result ≡ self.now.fault }
    {
        self.progress.fault
    }

    /// `NoMemory` if `fault` is true, for a `?` after a loop.
    /// ```
    /// let (tx, rx) = flume::on(rt).unbounded::<u64>()?;
    /// tx.send(42)?;
    /// drop(tx);
    /// let mut messages = rx.iter();
    /// for message in messages.by_ref() {
    ///     assert_eq!(rt; message, 42);
    /// }
    /// messages.ended()?;
    /// ```
    pub fn ended(&self) -> Result<(), NoMemory>
        ensures no_memory { IsErr result ↔ self.now.fault ≡ true }
    {
        if self.progress.fault {
            Err(NoMemory)
        } else {
            Ok(())
        }
    }
}

impl<'a, T: Drop, R: Waits, A: Allocator + Copy> Iterator for Iter<'a, T, R, A> {
    type Item = T;

    ghost next_gives = { IsNext A };

    ghost remaining = { λ it. at_most it.calls_left };

    fn next(&mut self) -> Option<T> {
        self.progress.receive(self.receiver, &mut self.me)
    }
}

impl<'a, T: Drop, R: Waits, A: Allocator + Copy, J: ChannelName> Iterator
    for Iter<'a, T, R, A, Traced<T, A, J>> {
    type Item = T;

    ghost next_gives = { IsTracedNext };

    ghost remaining = { λ it. at_most it.calls_left };

    fn next(&mut self) -> Option<T> {
        self.progress.receive(self.receiver, &mut self.me)
    }
}

impl<'a, T: Drop, R: Waits, A: Allocator + Copy, J: ChannelName> Iter<
    'a,
    T,
    R,
    A,
    Traced<T, A, J>,
> {
    /// The party, with what it received. To prove what that is, loop by `while let`: of an iterator
    /// that a `for` goes over `by_ref`, nothing is known after the loop.
    /// ```
    /// let channel = UnopenedChannel::unbounded(1);
    /// let (tx, rx, mut me) = flume::on(rt).traced::<u64, Brand>(channel)?;
    /// tx.send(&mut me, 7)?;
    /// let mut messages = rx.iter(me);
    /// assert_eq!(rt; messages.next(), Some(7));
    /// let mut me = messages.into_party();
    /// assert_eq!(rt; rx.settle(&mut me), Some(0));
    /// ```
    pub fn into_party(self) -> ChannelParty<T, J, A>
        ensures party { result ≡ self.entry.party }
    {
        self.me
    }
}

impl<'a, T: Drop, R: Waits, A: Allocator + Copy, K: Keeper<T, A>> fmt::Debug
    for Iter<'a, T, R, A, K> {
    fn fmt<W: fmt::Write>(&self, f: &mut fmt::Formatter<W>) -> fmt::Result {
        show(f, "Iter", self.receiver)
    }
}

impl<'a, T: Drop, R: Waits, A: Allocator + Copy> IntoIterator for &'a Receiver<T, R, A> {
    type Item = T;

    type IntoIter = Iter<'a, T, R, A>;

    ghost into_iter_gives = { λ receiver it. it ≡ new_iter receiver.now };

    fn into_iter(self) -> Iter<'a, T, R, A> {
        Iter::new(self, NoParty)
    }
}

impl<T: Drop, R: Waits, A: Allocator + Copy, J: ChannelName> Receiver<T, R, A, Traced<T, A, J>> {
    /// As of a receiver without a trace. The iterator has the party; `into_party` gives it back.
    pub fn iter(&self, me: ChannelParty<T, J, A>) -> Iter<'_, T, R, A, Traced<T, A, J>>
        ensures new { result ≡ new_iter_by me self.now }
    {
        Iter::new(self, me)
    }

    /// As of a receiver without a trace. The iterator has the party, as that of `iter`.
    pub fn try_iter(&self, me: ChannelParty<T, J, A>) -> TryIter<'_, T, R, A, Traced<T, A, J>>
        ensures new { result ≡ new_iter_by me self.now }
    {
        TryIter::new(self, me)
    }
}

/// The messages of a receiver, as `try_recv` gives them. After a `None` more may come.
#[derive(Drop)]
pub struct TryIter<'a, T, R, A = Global, K = NoTrace>
where
    R: Waits,
    A: Allocator + Copy,
    K: Keeper<T, A>,
{
    receiver: &'a Receiver<T, R, A, K>,
    progress: Progress,
    me: K::Party,
}

impl<'a, T, R: Waits, A: Allocator + Copy, K: Keeper<T, A>> Model for TryIter<'a, T, R, A, K> {
    ghost use Rattle.std.specs.Prelude.{false};
    ghost use Rattle.flume.specs.Iterators.{IterValue};

    ghost Value = { IterValue K.Party };

    ghost view = { λ it. record {
      channel = it.receiver.now;
      fault = false;
      calls_left = it.progress.calls_left;
      party = it.me;
    } };
}

impl<'a, T: Drop, R: Waits, A: Allocator + Copy, K: Keeper<T, A>> TryIter<'a, T, R, A, K> {
    pub(crate) fn new(receiver: &'a Receiver<T, R, A, K>, me: K::Party) -> Self
        ensures new { result ≡ new_iter_by me receiver.now }
    {
        TryIter {
            receiver,
            progress: Progress::new(),
            me,
        }
    }

    /// Never: `try_recv` is never refused memory.
    pub fn fault(&self) -> bool
        ensures never { result ≡ false }
    {
        false
    }
}

impl<'a, T: Drop, R: Waits, A: Allocator + Copy> Iterator for TryIter<'a, T, R, A> {
    type Item = T;

    ghost next_gives = { IsTryNext A };

    ghost remaining = { λ it. at_most it.calls_left };

    fn next(&mut self) -> Option<T> {
        self.progress.try_receive(self.receiver, &mut self.me)
    }
}

impl<'a, T: Drop, R: Waits, A: Allocator + Copy, J: ChannelName> Iterator
    for TryIter<'a, T, R, A, Traced<T, A, J>> {
    type Item = T;

    ghost next_gives = { IsTracedTryNext };

    ghost remaining = { λ it. at_most it.calls_left };

    fn next(&mut self) -> Option<T> {
        self.progress.try_receive(self.receiver, &mut self.me)
    }
}

impl<'a, T: Drop, R: Waits, A: Allocator + Copy, J: ChannelName> TryIter<
    'a,
    T,
    R,
    A,
    Traced<T, A, J>,
> {
    /// As `Iter::into_party`.
    pub fn into_party(self) -> ChannelParty<T, J, A>
        ensures party { result ≡ self.entry.party }
    {
        self.me
    }
}

impl<'a, T: Drop, R: Waits, A: Allocator + Copy, K: Keeper<T, A>> fmt::Debug
    for TryIter<'a, T, R, A, K> {
    fn fmt<W: fmt::Write>(&self, f: &mut fmt::Formatter<W>) -> fmt::Result {
        show(f, "TryIter", self.receiver)
    }
}

pub(crate) fn show<D: fmt::Debug, W: fmt::Write>(
    f: &mut fmt::Formatter<W>,
    name: &str,
    receiver: &D,
) -> fmt::Result {
    f.debug_struct(name).field("receiver", receiver).finish()
}
