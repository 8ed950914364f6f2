//! Takes the next event.
ghost use Rattle.std.specs.Prelude.{◌≡◌, ◌<◌, ℕ, false, IsTrue, length};
ghost use Rattle.judge_search.specs.Configurations.{call_at};
ghost use Rattle.judge_search.specs.Dead.{EventLeads, EventWaits};
ghost use Rattle.judge_search.specs.Happens.{may_end, with_call, without_call};
ghost use Rattle.judge_search.specs.declared.configuration.OpenCall.{OpenCall};

use crate::choice::Choice;
use crate::configuration::{Configuration, OpenCall, Progress};
use crate::places::{call_at, call_of};
use judge_calls::call::Answer;
use judge_calls::event::Event;
use judge_calls::stage::Stage;
use std::alloc::Allocator;

/// The place to which the events that have no alternative lead.
#[derive(Clone, Copy, Debug, Drop)]
pub enum Forced {
    AtEnd,
    /// The event there returns this open call, which isn't done.
    Stops(usize, OpenCall),
    /// The event there can't come.
    Dead(usize),
    NoMemory,
}

impl<A: Allocator + Copy> Configuration<A> {
    /// Whether the event at a place may come now.
    pub fn may_take_event<T: Copy + Eq + Drop>(&self, events: &[Event<T, A>], place: usize) -> bool
        requires { place < length events.now }
        ensures waits { result ≡ false → EventWaits T.eq events.now place self.now }
    {
        match &events[place] {
            Event::Begins { thread, .. } => {
                call_of(self.calls.as_slice(), events, *thread).is_none()
            }
            Event::Returns { thread, answer } => {
                match call_of(self.calls.as_slice(), events, *thread) {
                    Some(one) => may_return(one, events, answer),
                    None => false,
                }
            }
        }
    }

    /// Takes the event at a place. `false`: an allocation failed.
    pub fn take_event<T: Copy + Eq + Drop>(&mut self, events: &[Event<T, A>], place: usize) -> bool
        requires { place < length events.now }
        ensures leads { IsTrue result → EventLeads T.eq events.now place self.old self.new }
    {
        match &events[place] {
            Event::Begins { .. } => self.begin_call(place),
            Event::Returns { thread, .. } => {
                if let Some(one) = call_of(self.calls.as_slice(), events, *thread) {
                    self.end_call(one.place);
                }
                true
            }
        }
    }

    fn begin_call(&mut self, place: usize) -> bool
        ensures begun { IsTrue result → self.new ≡ with_call place self.old }
    {
        self.calls
            .push(OpenCall {
                place,
                progress: Progress::Begun,
            })
            .is_ok()
    }

    fn end_call(&mut self, place: usize)
        ensures ended { self.new ≡ without_call place self.old }
    {
        self.calls.retain(|call| call.place != place);
    }

    /// Takes the events that have no alternative, and adds them to `chosen`.
    pub fn take_forced<T: Copy + Eq + Drop>(
        &mut self,
        events: &[Event<T, A>],
        place: usize,
        chosen: &mut Vec<Choice, A>,
    ) -> Forced
        ensures within { (next : ℕ) (own : OpenCall) → result ≡ Forced.Stops next own
            → next < length events.now }
    {
        for next in place..events.len() {
            if let Some(own) = self.returning_call(events, next) {
                return Forced::Stops(next, own);
            }
            if !self.may_take_event(events, next) {
                return Forced::Dead(next);
            }
            if !self.take_event(events, next) || chosen.push(Choice::TakeEvent).is_err() {
                return Forced::NoMemory;
            }
        }
        Forced::AtEnd
    }
}

fn may_return<T: Copy + Eq + Drop, A: Allocator + Copy>(
    one: OpenCall,
    events: &[Event<T, A>],
    recorded_answer: &Answer<T, A>,
) -> bool
    ensures may { result
        ≡ may_end T.eq (call_at events.now one.place) one.progress recorded_answer.now }
{
    let Some(call) = call_at(events, one.place) else {
        return false;
    };
    match one.progress {
        Progress::Begun => call.may_return(&Stage::Begun, recorded_answer),
        Progress::Tried => call.may_return(&Stage::Tried, recorded_answer),
        Progress::Parked | Progress::Refused => false,
        Progress::Done => true,
    }
}
