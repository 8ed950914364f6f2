//! The drain.
ghost use Rattle.std.specs.Prelude.{◌≡◌, ◌≤◌, IfOk, OnErr, [], length, vec_capacity};
ghost use Rattle.std.specs.Iterator.{at_most};
ghost use Rattle.std.specs.Map.Iter.{TakesFirst};
ghost use Rattle.flume.specs.Iterators.{after_drain};
ghost use Rattle.flume.specs.LockedTurns.{HasMade};
ghost use Rattle.judge_recorder.specs.Drains.{drain_result, messages_of};
ghost use Rattle.judge_recorder.specs.Records.{Records};

use crate::recorder::Recorder;
use flume::error::NoMemory;
use flume::step::Step;
use flume::{Drain, Receiver, Waits};
use judge_calls::call::{Answer, Call, Messages};
use std::alloc::{Allocator, Global};
use std::collections::VecDeque;

/// The messages of a drain, in order. It drops the remaining ones.
/// ```
/// recorder.send(&tx, 7)?;
/// let mut messages = recorder.drain(&rx)?;
/// assert_eq!(rt; messages.next(), Some(7));
/// assert_eq!(rt; messages.next(), None);
/// ```
#[derive(Drop)]
pub enum DrainedMessages<'a, T: Drop, C: Allocator, A: Allocator = Global> {
    /// They weren't recorded, since an allocation failed.
    Own(Drain<'a, T, C>),
    List(VecDeque<T, A>),
}

impl<T: Drop, C: Allocator, A: Allocator> Iterator for DrainedMessages<'_, T, C, A> {
    type Item = T;

    ghost next_gives = { λ old out new. TakesFirst (λ message. message) (messages_of old) out
        (messages_of new) };

    ghost remaining = { λ left. at_most (length (messages_of left)) };

    fn next(&mut self) -> Option<T> {
        match self {
            DrainedMessages::Own(messages) => messages.next(),
            DrainedMessages::List(messages) => messages.pop_front(),
        }
    }
}

fn push_all<T: Drop, C: Allocator, A: Allocator>(
    messages: Drain<'_, T, C>,
    mut list: Vec<T, A>,
) -> Vec<T, A>
    requires empty { list.items ≡ [] }
    requires room { length messages ≤ vec_capacity list }
    ensures messages { result.items ≡ messages.entry }
{
    for message in messages {
        list.push_reserved(message);
    }
    list
}

impl<T: Copy + Drop, A: Allocator + Copy> Recorder<T, A> {
    /// Calls `Receiver::drain`.
    /// ```
    /// recorder.send(&tx, 7)?;
    /// let mut messages = recorder.drain(&rx)?;
    /// assert_eq!(rt; messages.next(), Some(7));
    /// ```
    pub fn drain<'a, R: Waits, C: Allocator + Copy>(
        &mut self,
        rx: &'a Receiver<T, R, C>,
    ) -> Result<DrainedMessages<'a, T, C, A>, NoMemory>
        ensures recorded { IfOk result (λ messages. Records self.old self.new Call.Drain
            (Answer.Drained (messages_of messages))) }
        ensures refused { OnErr result (Records self.old self.new Call.Drain Answer.NoMemory) }
        ensures made { HasMade {A = C} Step.Drain after_drain (drain_result result) }
    {
        let began = self.begin();
        match rx.drain() {
            Ok(messages) => Ok(self.record_drain(began, messages)),
            Err(error) => {
                self.record(began, Call::Drain, Answer::NoMemory);
                Err(error)
            }
        }
    }

    fn record_drain<'a, C: Allocator>(
        &mut self,
        began: u64,
        messages: Drain<'a, T, C>,
    ) -> DrainedMessages<'a, T, C, A>
        ensures recorded { Records self.old self.new Call.Drain (Answer.Drained messages.entry) }
        ensures same { messages_of result ≡ messages.entry }
    {
        let Ok(list) = Vec::with_capacity(self.alloc, messages.len()) else {
            self.mark_incomplete();
            return DrainedMessages::Own(messages);
        };
        let list = push_all(messages, list);
        self.record_messages(began, list.as_slice());
        DrainedMessages::List(VecDeque::from_vec(list))
    }

    fn record_messages(&mut self, began: u64, messages: &[T])
        ensures recorded { Records self.old self.new Call.Drain (Answer.Drained messages.now) }
    {
        let Ok(copy) = Vec::from_slice(self.alloc, messages) else {
            self.mark_incomplete();
            return;
        };
        self.record(began, Call::Drain, Answer::Drained(Messages::new(copy)));
    }
}
