//! Replies of a channel, from replies by places.
ghost use Rattle.std.specs.Prelude.{◌≡◌, ℕ, IfSome, List, Some, map};
ghost use Rattle.judge_calls.specs.declared.event.Event.{Event};
ghost use Rattle.judge_search.specs.Configurations.{message_at};
ghost use Rattle.judge_search.specs.Mirrors.{Corresponds};

use crate::place_reply::PlaceReply;
use crate::places::call_at;
use flume_model::step::Reply;
use judge_calls::event::Event;
use std::alloc::Allocator;

/// The channel's reply, with the ticket 0, for a reply by places to a call with this message, while
/// these sends are queued. `None`: an allocation failed, or no call sends the reply's message.
pub fn reply_for<T: Copy + Eq + Drop, A: Allocator + Copy>(
    alloc: A,
    reply_by_place: PlaceReply,
    message: Option<T>,
    events: &[Event<T, A>],
    queue: &[usize],
) -> Option<Reply<T, A>>
    ensures corresponds { IfSome result (λ reply.
        Corresponds events.now 0 queue.now reply_by_place reply) }
{
    match reply_by_place {
        PlaceReply::Got(place) => Some(Reply::Got(message_at(events, place)?)),
        PlaceReply::Drained => Some(Reply::Drained(messages_at(alloc, events, queue)?)),
        PlaceReply::Full => Some(Reply::Full(message?)),
        PlaceReply::Closed => Some(Reply::Closed(message?)),
        PlaceReply::Returned(closed) => Some(Reply::Returned {
            message: message?,
            closed,
        }),
        _ => plain_reply(reply_by_place),
    }
}

fn plain_reply<T, A: Allocator>(reply_by_place: PlaceReply) -> Option<Reply<T, A>>
    ensures corresponds { (events : List (Event T A)) (queue : List ℕ)
        → IfSome result (λ reply. Corresponds events 0 queue reply_by_place reply) }
{
    match reply_by_place {
        PlaceReply::Sent => Some(Reply::Sent { filled: None }),
        PlaceReply::Pending => Some(Reply::Pending(0)),
        PlaceReply::Accepted => Some(Reply::Accepted),
        PlaceReply::Waiting => Some(Reply::Waiting),
        PlaceReply::NoTicket => Some(Reply::NoTicket),
        PlaceReply::Empty => Some(Reply::Empty),
        PlaceReply::Ended => Some(Reply::Ended),
        PlaceReply::Parked => Some(Reply::Parked(0)),
        PlaceReply::Gone(closed) => Some(Reply::Gone {
            closed,
            filled: None,
        }),
        PlaceReply::Done => Some(Reply::Done),
        PlaceReply::NoEnd => Some(Reply::NoEnd),
        PlaceReply::CountFull => Some(Reply::CountFull),
        PlaceReply::Number(number) => Some(Reply::Number(number)),
        PlaceReply::Flag(flag) => Some(Reply::Flag(flag)),
        PlaceReply::Capacity(capacity) => Some(Reply::Capacity(capacity)),
        PlaceReply::Unbounded => Some(Reply::Unbounded),
        _ => None,
    }
}

/// The message that the call sends that began at a place.
pub fn message_at<T: Copy + Eq + Drop, A: Allocator + Copy>(
    events: &[Event<T, A>],
    place: usize,
) -> Option<T>
    ensures message { result ≡ message_at events.now place }
{
    call_at(events, place)?.message()
}

fn messages_at<T: Copy + Eq + Drop, A: Allocator + Copy>(
    alloc: A,
    events: &[Event<T, A>],
    places: &[usize],
) -> Option<Vec<T, A>>
    ensures messages { IfSome result (λ list.
        map (message_at events.now) places.now ≡ map Some list.items) }
{
    let mut messages = Vec::new(alloc);
    for place in places {
        let message = message_at(events, *place)?;
        if messages.push(message).is_err() {
            return None;
        }
    }
    Some(messages)
}
