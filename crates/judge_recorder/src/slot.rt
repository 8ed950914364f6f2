//! Slots, into which futures write for their recorders what they return.
ghost use Rattle.std.specs.Prelude.{◌≡◌};
ghost use Rattle.judge_recorder.specs.Answers.{recorded_answer};

use crate::counters::Counters;
use judge_calls::call::Answer;
use std::alloc::Allocator;
use std::sync::{Arc, OnceLock};

/// What a future's call returned.
#[derive(Clone, Copy, Drop)]
pub enum FutureAnswer<T> {
    Sent,
    Got(T),
    Disconnected,
    NoMemory,
    /// Before it was ready.
    Dropped,
}

#[derive(Clone, Copy, Drop)]
pub(crate) struct Return<T> {
    pub(crate) stamp: u64,
    pub(crate) answer: FutureAnswer<T>,
}

// Empty until the call returns.
pub(crate) type Slot<T> = OnceLock<Return<T>>;

#[derive(Drop)]
pub(crate) struct SlotWriter<T: Drop, A: Allocator> {
    pub(crate) counters: Arc<Counters, A>,
    pub(crate) slot: Arc<Slot<T>, A>,
}

#[derive(Drop)]
pub(crate) struct FutureSlot<T: Drop, A: Allocator> {
    pub(crate) thread: usize,
    pub(crate) slot: Arc<Slot<T>, A>,
}

impl<T: Copy + Drop, A: Allocator> SlotWriter<T, A> {
    // Only the first answer counts.
    pub(crate) fn write(&self, answer: FutureAnswer<T>) {
        let stamp = self.counters.next_stamp();
        let _ = self.slot.try_set(Return { stamp, answer });
    }
}

pub(crate) fn answer_of<T: Copy, A: Allocator>(answer: FutureAnswer<T>) -> Answer<T, A>
    ensures value { result ≡ recorded_answer answer }
{
    match answer {
        FutureAnswer::Sent => Answer::Sent,
        FutureAnswer::Got(message) => Answer::Got(message),
        FutureAnswer::Disconnected => Answer::Disconnected,
        FutureAnswer::NoMemory => Answer::NoMemory,
        FutureAnswer::Dropped => Answer::Dropped,
    }
}
