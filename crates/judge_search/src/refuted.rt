//! Refutes events by a pattern, without a search.
ghost use Rattle.std.specs.Prelude.{◌<◌, ◌+◌, take, length, IfOk, IfSome, IsTrue};
ghost use Rattle.flume_model.specs.Log.{Opening};
ghost use Rattle.judge_calls.specs.Explanations.{IsExplained};

use crate::patterns::{Overtaking, begins, got, is_out_of_order, is_unsent, last_send};
use flume_core::error::NoMemory;
use judge_calls::event::Event;
use judge_calls::laws::{messages_are_received_in_order, only_what_was_sent_is_received};
use std::alloc::{AllocError, Allocator};

#[derive(Clone, Copy, Debug, Drop)]
struct Latest {
    sent: usize,
    received: usize,
}

/// The first place up to which a pattern refutes the events. `NoMemory`: an allocation failed.
pub fn refuted_at<T: Copy + Eq + Drop, A: Allocator + Copy>(
    alloc: A,
    events: &[Event<T, A>],
) -> Result<Option<usize>, NoMemory>
    ensures within { IfOk result (λ found. IfSome found (λ place. place < length events.now)) }
    ensures refuted { (opening : Opening) → IfOk result (λ found. IfSome found (λ place.
        IsExplained T.eq opening (take (place + 1) events.now) → ⊥)) }
{
    // For each event: the receive before it whose message was sent last.
    let mut latest: Vec<Option<Latest>, A> = Vec::new(alloc);
    let mut last = None;
    for place in 0..events.len() {
        latest.push(last).map_err(AllocError::from)?;
        if is_refuted(&events[..=place], latest.as_slice()) {
            return Ok(Some(place));
        }
        last = later(last, latest_at(events, place));
    }
    Ok(None)
}

fn is_refuted<T: Copy + Eq + Drop, A: Allocator>(
    events: &[Event<T, A>],
    latest: &[Option<Latest>],
) -> bool
    ensures refuted { (opening : Opening) → IsTrue result
        → IsExplained T.eq opening events.now → ⊥ }
{
    only_what_was_sent_is_received::<T, A>();
    messages_are_received_in_order::<T, A>();
    if is_unsent(events) {
        return true;
    }
    match overtaking(events, latest) {
        Some(at) => is_out_of_order(events, at),
        None => false,
    }
}

fn overtaking<T: Copy + Eq + Drop, A: Allocator>(
    events: &[Event<T, A>],
    latest: &[Option<Latest>],
) -> Option<Overtaking> {
    let (last, before) = events.split_last()?;
    let own = got(last)?;
    let begun = begun_by(before, own.thread)?;
    let latest = latest.get(begun).copied()??;
    let sent = last_send(before, own.message)?;
    if sent < latest.sent {
        Some(Overtaking {
            sent: latest.sent,
            received: latest.received,
            begun,
        })
    } else {
        None
    }
}

fn latest_at<T: Copy + Eq + Drop, A: Allocator>(
    events: &[Event<T, A>],
    received: usize,
) -> Option<Latest> {
    let own = got(events.get(received)?)?;
    let sent = last_send(&events[..received], own.message)?;
    Some(Latest { sent, received })
}

fn later(first: Option<Latest>, second: Option<Latest>) -> Option<Latest> {
    match (first, second) {
        (Some(one), Some(other)) if one.sent < other.sent => Some(other),
        (Some(one), _) => Some(one),
        (None, other) => other,
    }
}

fn begun_by<T: Drop, A: Allocator>(events: &[Event<T, A>], own: usize) -> Option<usize> {
    for back in 0..events.len() {
        let place = events.len() - 1 - back;
        if begins(&events[place], own) {
            return Some(place);
        }
    }
    None
}
