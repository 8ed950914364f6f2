//! What a sender and a receiver have in common.
ghost use Rattle.flume_calls.specs.Singles.{after_set_capacity};
ghost use Rattle.flume.specs.CallSteps.{HasReplied};
ghost use Rattle.flume.specs.LockedTurns.{HasMade};

use flume::error::CapacityError;
use flume::step::{Reply, Step};
use flume::{Receiver, Sender, Waits};
use std::alloc::Allocator;

/// A sender or a receiver, with its own methods.
/// ```
/// fn ask(recorder: &mut Recorder<u64>, end: &impl End) -> usize {
///     recorder.len(end)
/// }
/// ```
pub trait End {
    type Message;
    /// The channel's allocator.
    type Memory: Allocator;

    fn len(&self) -> usize
        ensures made { HasReplied {T = Self.Message} {A = Self.Memory} Step.Len
            (Reply.Number result) };

    fn is_empty(&self) -> bool
        ensures made { HasReplied {T = Self.Message} {A = Self.Memory} Step.IsEmpty
            (Reply.Flag result) };

    fn is_full(&self) -> bool
        ensures made { HasReplied {T = Self.Message} {A = Self.Memory} Step.IsFull
            (Reply.Flag result) };

    fn capacity(&self) -> Option<usize>
        ensures made { HasReplied {T = Self.Message} {A = Self.Memory} Step.Capacity
            (Reply.Capacity result) };

    fn sender_count(&self) -> usize
        ensures made { HasReplied {T = Self.Message} {A = Self.Memory} Step.SenderCount
            (Reply.Number result) };

    fn receiver_count(&self) -> usize
        ensures made { HasReplied {T = Self.Message} {A = Self.Memory} Step.ReceiverCount
            (Reply.Number result) };

    fn is_disconnected(&self) -> bool
        ensures made { HasReplied {T = Self.Message} {A = Self.Memory} Step.IsDisconnected
            (Reply.Flag result) };

    fn set_capacity(&self, capacity: usize) -> Result<(), CapacityError>
        ensures made { HasMade {T = Self.Message} {A = Self.Memory} (Step.SetCapacity capacity)
            after_set_capacity result };
}

impl<T: Drop, R: Waits, C: Allocator + Copy> End for Sender<T, R, C> {
    type Message = T;

    type Memory = C;

    fn len(&self) -> usize {
        Sender::len(self)
    }

    fn is_empty(&self) -> bool {
        Sender::is_empty(self)
    }

    fn is_full(&self) -> bool {
        Sender::is_full(self)
    }

    fn capacity(&self) -> Option<usize> {
        Sender::capacity(self)
    }

    fn sender_count(&self) -> usize {
        Sender::sender_count(self)
    }

    fn receiver_count(&self) -> usize {
        Sender::receiver_count(self)
    }

    fn is_disconnected(&self) -> bool {
        Sender::is_disconnected(self)
    }

    fn set_capacity(&self, capacity: usize) -> Result<(), CapacityError> {
        self.set_capacity(capacity)
    }
}

impl<T: Drop, R: Waits, C: Allocator + Copy> End for Receiver<T, R, C> {
    type Message = T;

    type Memory = C;

    fn len(&self) -> usize {
        Receiver::len(self)
    }

    fn is_empty(&self) -> bool {
        Receiver::is_empty(self)
    }

    fn is_full(&self) -> bool {
        Receiver::is_full(self)
    }

    fn capacity(&self) -> Option<usize> {
        Receiver::capacity(self)
    }

    fn sender_count(&self) -> usize {
        Receiver::sender_count(self)
    }

    fn receiver_count(&self) -> usize {
        Receiver::receiver_count(self)
    }

    fn is_disconnected(&self) -> bool {
        Receiver::is_disconnected(self)
    }

    fn set_capacity(&self, capacity: usize) -> Result<(), CapacityError> {
        self.set_capacity(capacity)
    }
}
