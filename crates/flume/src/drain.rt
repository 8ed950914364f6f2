//! The messages that one step took out of a channel.
ghost use Rattle.std.specs.Prelude.{◌≡◌, List, length};
ghost use Rattle.std.specs.Iterator.{at_most, Drains, IsFinite};
ghost use Rattle.std.specs.Map.Iter.{TakesFirst};
ghost use Rattle.flume_core.specs.PossibleReply.{PossibleReply};
ghost use Rattle.flume.specs.Iterators.{after_drain};

use flume_core::error::NoMemory;
use flume_model::step::{Reply, Step};
use std::alloc::{Allocator, Global};
use std::collections::VecDeque;
use std::fmt;
use std::marker::{Model, PhantomData};

/// The messages that `Receiver::drain` took, in order. Those that are left are dropped with it.
#[derive(Drop)]
pub struct Drain<'a, T, A: Allocator = Global> {
    queue: VecDeque<T, A>,
    receiver: PhantomData<&'a ()>,
}

impl<'a, T, A: Allocator> Model for Drain<'a, T, A> {
    ghost use Rattle.std.specs.Prelude.{List};

    ghost Value = { List T };

    ghost view = { λ drain. drain.queue.items };
}

impl<'a, T: Drop, A: Allocator> Drain<'a, T, A> {
    pub(crate) fn answer(reply: Reply<T, A>) -> Result<Self, NoMemory>
        requires possible { PossibleReply Step.Drain reply }
        ensures table { after_drain reply result }
    {
        match reply {
            Reply::Drained(list) => Ok(Drain {
                queue: VecDeque::from_vec(list),
                receiver: PhantomData,
            }),
            Reply::NoMemory(_) => Err(NoMemory),
            _ => unreachable!(),
        }
    }
}

impl<'a, T: Drop, A: Allocator> Iterator for Drain<'a, T, A> {
    type Item = T;

    ghost next_gives = { TakesFirst (λ message. message) };

    ghost remaining = { λ left. at_most (length left) };

    fn next(&mut self) -> Option<T> {
        self.queue.pop_front()
    }

    fn size_hint(&self) -> (usize, Option<usize>) {
        let len = self.len();
        (len, Some(len))
    }
}

impl<'a, T: Drop, A: Allocator> ExactSizeIterator for Drain<'a, T, A> {
    fn len(&self) -> usize
        ensures finite { IsFinite (at_most (length self.now)) }
        ensures value { result ≡ length self.now }
        ensures gives { (items : List T) → Drains (TakesFirst (λ message. message)) self.now items
            → (items ≡ self.now) × (result ≡ length items) }
    {
        self.queue.len()
    }
}

impl<'a, T: fmt::Debug, A: Allocator> fmt::Debug for Drain<'a, T, A> {
    fn fmt<W: fmt::Write>(&self, f: &mut fmt::Formatter<W>) -> fmt::Result {
        f.debug_struct("Drain").field("queue", &self.queue).finish()
    }
}
