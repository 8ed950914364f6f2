//! Leaves out configurations in whose queue a message stands that another one overtakes.
ghost use Rattle.std.specs.Prelude.{◌≡◌, ◌<◌, ◌+◌, false, true, drop, take, IsTrue};
ghost use Rattle.judge_search.specs.Configurations.{call_by};
ghost use Rattle.judge_search.specs.Dead.{IsDeadEnd};
ghost use Rattle.judge_search.specs.Overtaking.{IsOvertaken, is_done, is_trying_if};
ghost use Rattle.judge_search.specs.Overtaking.{may_send, sends_at, some_sends};

use crate::call_records::{CallRecords, NEVER};
use crate::configuration::{Configuration, OpenCall, Progress};
use crate::patterns::{begins, got, is_never_sent};
use crate::places::call_of;
use crate::replies::message_at;
use judge_calls::event::Event;
use std::alloc::Allocator;

/// Where one message overtakes another one that is queued.
#[derive(Clone, Copy, Debug, Drop)]
pub struct Overtaken {
    /// So many of the queue come first, the other message as the last of them.
    count: usize,
    /// Where the one is received.
    received: usize,
    /// Where the receive of the other one begins.
    begun: usize,
    /// Where this receive returns.
    returned: usize,
}

impl<A: Allocator + Copy> CallRecords<A> {
    /// Whether nothing completes an explanation from a configuration before the event at a place, since
    /// a message in line is received before the receive begins of one that stands before it.
    pub fn are_overtaking<T: Copy + Eq + Drop>(
        &self,
        events: &[Event<T, A>],
        configuration: &Configuration<A>,
        place: usize,
    ) -> bool
        ensures dead { IsTrue result → IsDeadEnd T.eq events.now place configuration.now }
    {
        match self.overtaken(configuration, place) {
            Some(at) => configuration.is_overtaken(events, place, at),
            None => false,
        }
    }

    fn overtaken(&self, configuration: &Configuration<A>, place: usize) -> Option<Overtaken> {
        let mut latest = Overtaken {
            count: 0,
            received: 0,
            begun: 0,
            returned: 0,
        };
        for (index, send) in configuration.queue.iter().enumerate() {
            let record = self.of(*send);
            if record.received >= place && record.received < latest.begun {
                return Some(Overtaken {
                    received: record.received,
                    ..latest
                });
            }
            if record.received != NEVER && record.receive > latest.begun {
                latest = Overtaken {
                    count: index.saturating_add(1),
                    received: 0,
                    begun: record.receive,
                    returned: record.received,
                };
            }
        }
        self.blocked_overtakes(configuration.blocked.as_slice(), place, latest)
    }

    fn blocked_overtakes(
        &self,
        blocked: &[usize],
        place: usize,
        latest: Overtaken,
    ) -> Option<Overtaken> {
        for send in blocked {
            let record = self.of(*send);
            if record.received >= place && record.received < latest.begun {
                return Some(Overtaken {
                    received: record.received,
                    ..latest
                });
            }
        }
        None
    }
}

impl<A: Allocator + Copy> Configuration<A> {
    fn is_overtaken<T: Copy + Eq + Drop>(
        &self,
        events: &[Event<T, A>],
        place: usize,
        at: Overtaken,
    ) -> bool
        ensures dead { IsTrue result → IsDeadEnd T.eq events.now place self.now }
    {
        if place > at.received
            || at.received >= at.begun
            || at.begun >= at.returned
            || at.returned >= events.len()
        {
            return false;
        }
        let Some(second) = got(&events[at.received]) else {
            return false;
        };
        let Some(first) = got(&events[at.returned]) else {
            return false;
        };
        if !begins(&events[at.begun], first.thread)
            || !is_never_sent(&events[place..at.returned], first.message)
            || !self.has_none_open(events, first.message, second.thread)
        {
            return false;
        }
        self.has_in_line(events, at.count, first.message, second.message)
    }

    // No open call may send `first`, and the thread's open call has neither parked nor an answer.
    fn has_none_open<T: Copy + Eq + Drop>(
        &self,
        events: &[Event<T, A>],
        first: T,
        thread: usize,
    ) -> bool
        ensures none_open { IsTrue result
            → may_send events.now (T.eq first) self.now.calls ≡ false }
        ensures trying { IsTrue result
            → is_trying_if (call_by events.now thread self.now.calls) ≡ true }
    {
        !may_send(self.calls.as_slice(), events, first)
            && is_trying(call_of(self.calls.as_slice(), events, thread))
    }

    // An end lives; each `first` is among the first of the queue, and no `second` is.
    fn has_in_line<T: Copy + Eq + Drop>(
        &self,
        events: &[Event<T, A>],
        count: usize,
        first: T,
        second: T,
    ) -> bool
        ensures some_end { IsTrue result → 0 < self.now.senders + self.now.receivers }
        ensures none_before { IsTrue result
            → some_sends events.now (T.eq second) (take count self.now.queue) ≡ false }
        ensures none_behind { IsTrue result
            → some_sends events.now (T.eq first) (drop count self.now.queue) ≡ false }
        ensures none_blocked { IsTrue result
            → some_sends events.now (T.eq first) self.now.blocked ≡ false }
    {
        if count > self.queue.len() || !self.has_end() {
            return false;
        }
        let (front, behind) = self.queue.split_at(count);
        if some_sends(front, events, second) || some_sends(behind, events, first) {
            return false;
        }
        !some_sends(self.blocked.as_slice(), events, first)
    }

    fn has_end(&self) -> bool
        ensures some { IsTrue result → 0 < self.now.senders + self.now.receivers }
    {
        self.senders > 0 || self.receivers > 0
    }
}

fn may_send<T: Copy + Eq + Drop, A: Allocator + Copy>(
    calls: &[OpenCall],
    events: &[Event<T, A>],
    message: T,
) -> bool
    ensures may { result ≡ may_send events.now (T.eq message) calls.now }
{
    for call in calls {
        if !is_done(call.progress) && sends_at(call.place, events, message) {
            return true;
        }
    }
    false
}

fn is_done(progress: Progress) -> bool
    ensures done { result ≡ is_done progress }
{
    matches!(progress, Progress::Done)
}

fn is_trying(call: Option<OpenCall>) -> bool
    ensures trying { result ≡ is_trying_if call }
{
    match call {
        Some(call) => matches!(call.progress, Progress::Begun | Progress::Tried),
        None => true,
    }
}

fn some_sends<T: Copy + Eq + Drop, A: Allocator + Copy>(
    places: &[usize],
    events: &[Event<T, A>],
    message: T,
) -> bool
    ensures some { result ≡ some_sends events.now (T.eq message) places.now }
{
    for place in places {
        if sends_at(*place, events, message) {
            return true;
        }
    }
    false
}

fn sends_at<T: Copy + Eq + Drop, A: Allocator + Copy>(
    place: usize,
    events: &[Event<T, A>],
    message: T,
) -> bool
    ensures sends { result ≡ sends_at events.now (T.eq message) place }
{
    match message_at(events, place) {
        Some(own) => message == own,
        None => false,
    }
}
