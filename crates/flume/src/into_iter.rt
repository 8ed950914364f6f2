//! The iterator that owns its receiver.
ghost use Rattle.std.specs.Prelude.{◌≡◌, ◌↔◌, true, IsErr};
ghost use Rattle.std.specs.Iterator.{at_most};
ghost use Rattle.flume.specs.Iterators.{new_iter, new_iter_by, IsNext};
ghost use Rattle.flume.specs.PartyIterators.{IsTracedNext};

use crate::iterators::show;
use crate::progress::Progress;
use crate::receiver::Receiver;
use crate::shared::Waits;
use crate::traced::{ChannelName, ChannelParty, Traced};
use flume_core::error::NoMemory;
use flume_keeper::{Keeper, NoParty, NoTrace};
use std::alloc::{Allocator, Global};
use std::fmt;
use std::marker::Model;

/// As `Iter`, with the receiver in it.
/// ```
/// let (tx, rx) = flume::on(rt).unbounded()?;
/// tx.send(42)?;
/// drop(tx);
/// let mut last = 0;
/// for message in rx {
///     last = message;
/// }
/// assert_eq!(rt; last, 42);
/// ```
#[derive(Drop)]
pub struct IntoIter<T, R, A = Global, K = NoTrace>
where
    R: Waits,
    A: Allocator + Copy,
    K: Keeper<T, A>,
{
    receiver: Receiver<T, R, A, K>,
    progress: Progress,
    me: K::Party,
}

impl<T, R: Waits, A: Allocator + Copy, K: Keeper<T, A>> Model for IntoIter<T, R, A, K> {
    ghost use Rattle.flume.specs.Iterators.{IterValue};

    ghost Value = { IterValue K.Party };

    ghost view = { λ it. record {
      channel = it.receiver;
      fault = it.progress.fault;
      calls_left = it.progress.calls_left;
      party = it.me;
    } };
}

impl<T: Drop, R: Waits, A: Allocator + Copy, K: Keeper<T, A>> IntoIter<T, R, A, K> {
    fn new(receiver: Receiver<T, R, A, K>, me: K::Party) -> Self
        ensures new { result ≡ new_iter_by me receiver }
    {
        IntoIter {
            receiver,
            progress: Progress::new(),
            me,
        }
    }

    /// As `Iter::fault`.
    pub fn fault(&self) -> bool
        ensures fault { result ≡ self.now.fault }
    {
        self.progress.fault
    }

    /// As `Iter::ended`.
    pub fn ended(&self) -> Result<(), NoMemory>
        ensures no_memory { IsErr result ↔ self.now.fault ≡ true }
    {
        if self.progress.fault {
            Err(NoMemory)
        } else {
            Ok(())
        }
    }
}

impl<T: Drop, R: Waits, A: Allocator + Copy> Iterator for IntoIter<T, R, A> {
    type Item = T;

    ghost next_gives = { IsNext A };

    ghost remaining = { λ it. at_most it.calls_left };

    fn next(&mut self) -> Option<T> {
        self.progress.receive(&self.receiver, &mut self.me)
    }
}

impl<T: Drop, R: Waits, A: Allocator + Copy, J: ChannelName> Iterator
    for IntoIter<T, R, A, Traced<T, A, J>> {
    type Item = T;

    ghost next_gives = { IsTracedNext };

    ghost remaining = { λ it. at_most it.calls_left };

    fn next(&mut self) -> Option<T> {
        self.progress.receive(&self.receiver, &mut self.me)
    }
}

impl<T: Drop, R: Waits, A: Allocator + Copy, J: ChannelName> IntoIter<T, R, A, Traced<T, A, J>> {
    /// As `Iter::into_party`. Drops the receiver.
    pub fn into_party(self) -> ChannelParty<T, J, A>
        ensures party { result ≡ self.party }
    {
        self.me
    }
}

impl<T: Drop, R: Waits, A: Allocator + Copy, K: Keeper<T, A>> fmt::Debug for IntoIter<T, R, A, K> {
    fn fmt<W: fmt::Write>(&self, f: &mut fmt::Formatter<W>) -> fmt::Result {
        show(f, "IntoIter", &self.receiver)
    }
}

impl<T: Drop, R: Waits, A: Allocator + Copy> IntoIterator for Receiver<T, R, A> {
    type Item = T;

    type IntoIter = IntoIter<T, R, A>;

    ghost into_iter_gives = { λ receiver it. it ≡ new_iter receiver };

    fn into_iter(self) -> IntoIter<T, R, A> {
        IntoIter::new(self, NoParty)
    }
}

impl<T: Drop, R: Waits, A: Allocator + Copy, J: ChannelName> Receiver<T, R, A, Traced<T, A, J>> {
    /// As `iter`, with the receiver in it. `IntoIterator` couldn't take the party.
    pub fn into_iter(self, me: ChannelParty<T, J, A>) -> IntoIter<T, R, A, Traced<T, A, J>>
        ensures new { result ≡ new_iter_by me self }
    {
        IntoIter::new(self, me)
    }
}
