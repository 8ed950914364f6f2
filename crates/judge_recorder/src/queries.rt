//! The calls that ask, and the one that sets the capacity.
ghost use Rattle.flume_calls.specs.Singles.{after_set_capacity};
ghost use Rattle.flume.specs.CallSteps.{HasReplied};
ghost use Rattle.flume.specs.LockedTurns.{HasMade};
ghost use Rattle.judge_recorder.specs.Answers as spec;
ghost use Rattle.judge_recorder.specs.Records.{Records};

use crate::answers::set_capacity_answer;
use crate::end::End;
use crate::recorder::Recorder;
use flume::error::CapacityError;
use flume::step::{Reply, Step};
use judge_calls::call::{Answer, Call};
use std::alloc::Allocator;

impl<T: Copy + Drop, A: Allocator + Copy> Recorder<T, A> {
    /// Calls `len` of the end: how many messages are queued.
    /// ```
    /// assert_eq!(rt; recorder.len(&rx), 0);
    /// ```
    pub fn len<E: End>(&mut self, end: &E) -> usize
        ensures recorded { Records self.old self.new Call.Len (Answer.Number result) }
        ensures made { HasReplied {T = E.Message} {A = E.Memory} Step.Len
            (Reply.Number result) }
    {
        let began = self.begin();
        let result = end.len();
        self.record(began, Call::Len, Answer::Number(result));
        result
    }

    /// Calls `is_empty` of the end: whether no message is queued.
    /// ```
    /// assert!(rt; recorder.is_empty(&rx));
    /// ```
    pub fn is_empty<E: End>(&mut self, end: &E) -> bool
        ensures recorded { Records self.old self.new Call.IsEmpty (Answer.Flag result) }
        ensures made { HasReplied {T = E.Message} {A = E.Memory} Step.IsEmpty
            (Reply.Flag result) }
    {
        let began = self.begin();
        let result = end.is_empty();
        self.record(began, Call::IsEmpty, Answer::Flag(result));
        result
    }

    /// Calls `is_full` of the end: whether the queue is at or past the capacity.
    /// ```
    /// assert!(rt; !recorder.is_full(&tx));
    /// ```
    pub fn is_full<E: End>(&mut self, end: &E) -> bool
        ensures recorded { Records self.old self.new Call.IsFull (Answer.Flag result) }
        ensures made { HasReplied {T = E.Message} {A = E.Memory} Step.IsFull
            (Reply.Flag result) }
    {
        let began = self.begin();
        let result = end.is_full();
        self.record(began, Call::IsFull, Answer::Flag(result));
        result
    }

    /// Calls `capacity` of the end: `None` if unbounded.
    /// ```
    /// assert_eq!(rt; recorder.capacity(&tx), Some(1));
    /// ```
    pub fn capacity<E: End>(&mut self, end: &E) -> Option<usize>
        ensures recorded { Records self.old self.new Call.Capacity (Answer.Capacity result) }
        ensures made { HasReplied {T = E.Message} {A = E.Memory} Step.Capacity
            (Reply.Capacity result) }
    {
        let began = self.begin();
        let result = end.capacity();
        self.record(began, Call::Capacity, Answer::Capacity(result));
        result
    }

    /// Calls `sender_count` of the end.
    /// ```
    /// assert_eq!(rt; recorder.sender_count(&tx), 1);
    /// ```
    pub fn sender_count<E: End>(&mut self, end: &E) -> usize
        ensures recorded { Records self.old self.new Call.SenderCount (Answer.Number result) }
        ensures made { HasReplied {T = E.Message} {A = E.Memory} Step.SenderCount
            (Reply.Number result) }
    {
        let began = self.begin();
        let result = end.sender_count();
        self.record(began, Call::SenderCount, Answer::Number(result));
        result
    }

    /// Calls `receiver_count` of the end.
    /// ```
    /// assert_eq!(rt; recorder.receiver_count(&tx), 1);
    /// ```
    pub fn receiver_count<E: End>(&mut self, end: &E) -> usize
        ensures recorded { Records self.old self.new Call.ReceiverCount (Answer.Number result) }
        ensures made { HasReplied {T = E.Message} {A = E.Memory} Step.ReceiverCount
            (Reply.Number result) }
    {
        let began = self.begin();
        let result = end.receiver_count();
        self.record(began, Call::ReceiverCount, Answer::Number(result));
        result
    }

    /// Calls `is_disconnected` of the end: whether the channel is closed.
    /// ```
    /// assert!(rt; !recorder.is_disconnected(&tx));
    /// ```
    pub fn is_disconnected<E: End>(&mut self, end: &E) -> bool
        ensures recorded { Records self.old self.new Call.IsDisconnected (Answer.Flag result) }
        ensures made { HasReplied {T = E.Message} {A = E.Memory} Step.IsDisconnected
            (Reply.Flag result) }
    {
        let began = self.begin();
        let result = end.is_disconnected();
        self.record(began, Call::IsDisconnected, Answer::Flag(result));
        result
    }

    /// Calls `set_capacity` of the end.
    /// ```
    /// assert_eq!(rt; recorder.set_capacity(&tx, 2), Ok(()));
    /// ```
    pub fn set_capacity<E: End>(&mut self, end: &E, capacity: usize) -> Result<(), CapacityError>
        ensures recorded { Records self.old self.new (Call.SetCapacity capacity)
            (spec.set_capacity_answer result) }
        ensures made { HasMade {T = E.Message} {A = E.Memory} (Step.SetCapacity capacity)
            after_set_capacity result }
    {
        let began = self.begin();
        let result = end.set_capacity(capacity);
        self.record(
            began,
            Call::SetCapacity(capacity),
            set_capacity_answer(&result),
        );
        result
    }
}
