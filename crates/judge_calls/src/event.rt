//! What is recorded, and what explains it.
use crate::call::{Answer, Call};
use flume_model::step::{Reply, Step};
use std::alloc::{Allocator, Global};

/// What a thread records. A thread has one call at a time; a future counts as a thread of its own.
#[derive(Drop)]
pub enum Event<T, A: Allocator = Global> {
    Begins { thread: usize, call: Call<T> },
    Returns { thread: usize, answer: Answer<T, A> },
}

/// In an explanation: an event, or that the open call of a thread makes a step, with this reply.
#[derive(Drop)]
pub enum Item<T, A: Allocator = Global> {
    Happens(Event<T, A>),
    Makes {
        thread: usize,
        step: Step<T>,
        reply: Reply<T, A>,
    },
}
