//! Copies of replies.
ghost use Rattle.std.specs.Prelude.{◌≡◌, ◌≤◌, [], length, vec_capacity, vec_len};
ghost use Rattle.flume_model.specs.Replies.{SameReply};
ghost use Rattle.flume_audit.specs.Weights.{DrainedWithin};

use flume_core::chan::Chan;
use flume_model::step::{Reply, Step};
use std::alloc::Allocator;

// `room` takes the copy of a drained list.
#[inline(always)]
pub(crate) fn copy_reply<T: Copy, A: Allocator>(reply: &Reply<T, A>, room: Vec<T, A>) -> Reply<T, A>
    requires empty { room.items ≡ [] }
    requires room { DrainedWithin (vec_capacity room) reply.now }
    ensures same { SameReply reply.now result }
{
    match *reply {
        Reply::Sent { filled } => Reply::Sent { filled },
        Reply::Full(back) => Reply::Full(back),
        Reply::Closed(back) => Reply::Closed(back),
        Reply::NoMemory(back) => Reply::NoMemory(back),
        Reply::Spent(back) => Reply::Spent(back),
        Reply::Pending(ticket) => Reply::Pending(ticket),
        Reply::Accepted => Reply::Accepted,
        Reply::Waiting => Reply::Waiting,
        Reply::Returned { message, closed } => Reply::Returned { message, closed },
        Reply::NoTicket => Reply::NoTicket,
        Reply::Got(message) => Reply::Got(message),
        Reply::Empty => Reply::Empty,
        Reply::Ended => Reply::Ended,
        Reply::Parked(ticket) => Reply::Parked(ticket),
        Reply::Gone { closed, filled } => Reply::Gone { closed, filled },
        Reply::Drained(ref list) => Reply::Drained(copy_list(list, room)),
        Reply::Done => Reply::Done,
        Reply::NoEnd => Reply::NoEnd,
        Reply::CountFull => Reply::CountFull,
        Reply::Number(number) => Reply::Number(number),
        Reply::Flag(flag) => Reply::Flag(flag),
        Reply::Capacity(capacity) => Reply::Capacity(capacity),
        Reply::Unbounded => Reply::Unbounded,
    }
}

#[inline(never)]
fn copy_list<T: Copy, A: Allocator>(list: &Vec<T, A>, mut room: Vec<T, A>) -> Vec<T, A>
    requires empty { room.items ≡ [] }
    requires room { vec_len list.now ≤ vec_capacity room }
    ensures items { result.items ≡ list.now.items }
{
    let _ = room.extend_from_slice(list);
    room
}

#[inline(always)]
pub(crate) fn drain_len<T: Copy, A: Allocator + Copy>(
    chan: &Chan<T, (), A>,
    step: &Step<T>,
) -> usize
    ensures drain { step.now ≡ Step.Drain → result ≡ length chan.now.queue }
{
    match (step, chan.len()) {
        (Step::Drain, Reply::Number(queued)) => queued,
        _ => 0,
    }
}
