//! The channel and the open calls after some items. A call, and the message that it sends, goes by
//! its place: that of the event by which it began.
ghost use Rattle.std.specs.Prelude.{◌≡◌, IfOk, IfSome};
ghost use Rattle.judge_search.specs.Configurations.{call_with_progress, calls_with_progress};
ghost use Rattle.judge_search.specs.Configurations.{with_progress, start_of};

use flume_model::step::Kind;
use std::alloc::{AllocError, Allocator, Global};
use std::marker::Model;

/// How far an open call is.
#[derive(Clone, Copy, Debug, PartialEq, Eq, Drop)]
pub enum Progress {
    Begun,
    /// It found no room or no message.
    Tried,
    Parked,
    /// It was refused memory while it was parked: it withdraws.
    Refused,
    /// It may return its recorded answer.
    Done,
}

/// An open call.
#[derive(Clone, Copy, Debug, PartialEq, Eq, Drop)]
pub struct OpenCall {
    pub place: usize,
    pub progress: Progress,
}

/// The state of a parked receive.
#[derive(Clone, Copy, Debug, PartialEq, Eq, Drop)]
pub enum Status {
    Waiting,
    /// It is to ask again.
    Woken,
    /// It has the message of the send at this place.
    Filled(usize),
}

/// A parked receive.
#[derive(Clone, Copy, Debug, PartialEq, Eq, Drop)]
pub struct ParkedReceive {
    pub place: usize,
    pub kind: Kind,
    pub status: Status,
}

/// The channel and the open calls after some items of an explanation.
#[derive(Drop)]
pub struct Configuration<A: Allocator = Global> {
    /// `None` if unbounded.
    pub capacity: Option<usize>,
    pub senders: usize,
    pub receivers: usize,
    /// The sends whose messages are queued, the front first.
    pub queue: Vec<usize, A>,
    /// The blocked sends, in order.
    pub blocked: Vec<usize, A>,
    /// The waiting ones in the order in which they began to wait.
    pub receives: Vec<ParkedReceive, A>,
    pub calls: Vec<OpenCall, A>,
}

impl<A: Allocator> Model for Configuration<A> {
    ghost use Rattle.judge_search.specs.Configurations.{State};

    ghost Value = { State };

    ghost view = { λ c. record {
      capacity = c.capacity;
      senders = c.senders;
      receivers = c.receivers;
      queue = c.queue.items;
      blocked = c.blocked.items;
      receives = c.receives.items;
      calls = c.calls.items;
    } };
}

impl OpenCall {
    fn call_with_progress(self, place: usize, progress: Progress) -> OpenCall
        ensures { result ≡ call_with_progress place progress self }
    {
        if self.place == place {
            OpenCall {
                place: self.place,
                progress,
            }
        } else {
            self
        }
    }
}

impl<A: Allocator + Copy> Configuration<A> {
    /// The configuration of a new channel of this capacity (`None`: unbounded).
    pub fn new(alloc: A, capacity: Option<usize>) -> Self
        ensures start { result ≡ start_of capacity }
    {
        Configuration {
            capacity,
            senders: 1,
            receivers: 1,
            queue: Vec::new(alloc),
            blocked: Vec::new(alloc),
            receives: Vec::new(alloc),
            calls: Vec::new(alloc),
        }
    }

    /// A copy; `None` if an allocation failed.
    pub fn try_clone(&self, alloc: A) -> Option<Self>
        ensures same { IfSome result (λ copy. copy ≡ self.now) }
    {
        Some(Configuration {
            capacity: self.capacity,
            senders: self.senders,
            receivers: self.receivers,
            queue: Vec::from_slice(alloc, self.queue.as_slice()).ok()?,
            blocked: Vec::from_slice(alloc, self.blocked.as_slice()).ok()?,
            receives: Vec::from_slice(alloc, self.receives.as_slice()).ok()?,
            calls: Vec::from_slice(alloc, self.calls.as_slice()).ok()?,
        })
    }

    /// A copy with this progress of the call at a place; `None` if an allocation failed.
    pub fn with_progress(&self, alloc: A, place: usize, progress: Progress) -> Option<Self>
        ensures calls_with_progress { IfSome result (λ new.
            new ≡ with_progress place progress self.now) }
    {
        match (
            calls_with_progress(self.calls.as_slice(), alloc, place, progress),
            self.try_clone(alloc),
        ) {
            (Ok(calls), Some(copy)) => Some(Configuration { calls, ..copy }),
            _ => None,
        }
    }
}

pub(crate) fn calls_with_progress<A: Allocator + Copy>(
    calls: &[OpenCall],
    alloc: A,
    place: usize,
    progress: Progress,
) -> Result<Vec<OpenCall, A>, AllocError>
    ensures calls_with_progress { IfOk result (λ new.
        new.items ≡ calls_with_progress place progress calls.now) }
{
    calls
        .iter()
        .map(|call| call.call_with_progress(place, progress))
        .collect(alloc)
}
