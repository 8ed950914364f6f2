//! Patterns of events that have no explanation, found without a search.
ghost use Rattle.std.specs.Prelude.{◌≡◌, ◌≤◌, ◌∷◌, ◌↔◌, ℕ, [], false, true, length, take, drop};
ghost use Rattle.std.specs.Prelude.{IfNone, IfSome, IsTrue, None};
ghost use Rattle.judge_calls.specs.Patterns.{all_returned as all_return};
ghost use Rattle.judge_calls.specs.Patterns.{begins_send as some_begins};
ghost use Rattle.judge_calls.specs.Patterns.{returns_in as some_returns, sends as sends_such};
ghost use Rattle.judge_calls.specs.Patterns.{IsOutOfOrder, IsUnsent};
ghost use Rattle.judge_calls.specs.declared.call.Answer.{Answer};
ghost use Rattle.judge_calls.specs.declared.call.Call.{Call};
ghost use Rattle.judge_calls.specs.declared.event.Event.{Event};

use judge_calls::call::{Answer, Call};
use judge_calls::event::Event;
use std::alloc::Allocator;

/// A message, and the thread that received it.
#[derive(Clone, Copy, Debug, Drop)]
pub struct Received<T> {
    pub thread: usize,
    pub message: T,
}

/// Places of events by which two messages may have been received out of order.
#[derive(Clone, Copy, Debug, Drop)]
pub struct Overtaking {
    /// Where a send of the second message begins.
    pub sent: usize,
    /// Where the second message is received.
    pub received: usize,
    /// Where the receive of the first message begins.
    pub begun: usize,
}

/// Whether the last event receives a message of which no send has begun.
pub fn is_unsent<T: Copy + Eq + Drop, A: Allocator>(events: &[Event<T, A>]) -> bool
    ensures unsent { IsTrue result → IsUnsent T.eq events.now }
{
    let Some((last, before)) = events.split_last() else {
        return false;
    };
    match got(last) {
        Some(own) => is_never_sent(before, own.message),
        None => false,
    }
}

/// Whether the last event receives the first of two messages that are out of order at these places.
pub fn is_out_of_order<T: Copy + Eq + Drop, A: Allocator>(
    events: &[Event<T, A>],
    at: Overtaking,
) -> bool
    ensures order { IsTrue result → IsOutOfOrder T.eq events.now }
{
    let Some((last, before)) = events.split_last() else {
        return false;
    };
    if at.sent > at.received || at.received >= at.begun || at.begun >= before.len() {
        return false;
    }
    let Some(first) = got(last) else {
        return false;
    };
    let Some(second) = got(&before[at.received]) else {
        return false;
    };
    begins(&before[at.begun], first.thread)
        && is_sent_first(before, at.sent, first.message, second.message)
}

/// The thread and the message, if the event receives one.
pub fn got<T: Copy + Drop, A: Allocator>(event: &Event<T, A>) -> Option<Received<T>>
    ensures got { IfSome result (λ own.
        event.now ≡ Event.Returns own.thread (Answer.Got own.message)) }
    ensures none { IfNone result ((thread : ℕ) (message : T)
        → event.now ≡ Event.Returns thread (Answer.Got message) → ⊥) }
{
    let Event::Returns { thread, answer } = event else {
        return None;
    };
    match answer {
        Answer::Got(message) => Some(Received {
            thread: *thread,
            message: *message,
        }),
        _ => None,
    }
}

/// Whether the event begins a call of this thread.
pub fn begins<T: Drop, A: Allocator>(event: &Event<T, A>, own: usize) -> bool
    ensures begins { IsTrue result ↔ ((call : Call T) × (event.now ≡ Event.Begins own call)) }
{
    match event {
        Event::Begins { thread, .. } => *thread == own,
        Event::Returns { .. } => false,
    }
}

fn is_sent_first<T: Copy + Eq + Drop, A: Allocator>(
    events: &[Event<T, A>],
    place: usize,
    first: T,
    second: T,
) -> bool
    requires within { place ≤ length events.now }
    ensures returned { IsTrue result → all_return (T.eq first) (take place events.now) ≡ true }
    ensures no_first { IsTrue result → some_begins (T.eq first) (drop place events.now) ≡ false }
    ensures no_second { IsTrue result → some_begins (T.eq second) (take place events.now) ≡ false }
{
    let (before, after) = events.split_at(place);
    all_returned(before, first) && is_never_sent(after, first) && is_never_sent(before, second)
}

pub(crate) fn is_never_sent<T: Copy + Eq + Drop, A: Allocator>(
    events: &[Event<T, A>],
    message: T,
) -> bool
    ensures none { IsTrue result → some_begins (T.eq message) events.now ≡ false }
{
    last_send(events, message).is_none()
}

/// The place of the last of these events that begins a send of this message.
pub fn last_send<T: Copy + Eq + Drop, A: Allocator>(
    events: &[Event<T, A>],
    message: T,
) -> Option<usize>
    ensures none { result ≡ None → some_begins (T.eq message) events.now ≡ false }
{
    for back in 0..events.len() {
        let place = events.len() - 1 - back;
        if begins_send(&events[place], message) {
            return Some(place);
        }
    }
    None
}

fn begins_send<T: Copy + Eq + Drop, A: Allocator>(event: &Event<T, A>, message: T) -> bool
    ensures value { result ≡ some_begins (T.eq message) (event.now ∷ []) }
{
    match event {
        Event::Begins { call, .. } => sends(call, message),
        Event::Returns { .. } => false,
    }
}

fn all_returned<T: Copy + Eq + Drop, A: Allocator>(events: &[Event<T, A>], message: T) -> bool
    ensures value { result ≡ all_return (T.eq message) events.now }
{
    for place in 0..events.len() {
        if let Event::Begins { thread, call } = &events[place]
            && sends(call, message)
            && !returns_in(&events[place + 1..], *thread)
        {
            return false;
        }
    }
    true
}

fn returns_in<T: Drop, A: Allocator>(events: &[Event<T, A>], own: usize) -> bool
    ensures value { result ≡ some_returns own events.now }
{
    for event in events {
        if let Event::Returns { thread, .. } = event
            && *thread == own
        {
            return true;
        }
    }
    false
}

fn sends<T: Copy + Eq>(call: &Call<T>, message: T) -> bool
    ensures value { result ≡ sends_such (T.eq message) call.now }
{
    match call.message() {
        Some(own) => message == own,
        None => false,
    }
}
