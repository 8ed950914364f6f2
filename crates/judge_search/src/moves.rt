//! What an open call may do next, and the configuration after it.
ghost use Rattle.std.specs.Prelude.{◌≡◌, ℕ, IfSome, List, Option, Some, true, false};
ghost use Rattle.judge_search.specs.Mirrors.{Corresponds};
ghost use Rattle.std.specs.Option.{option_copied};
ghost use Rattle.std.specs.List.{Contains};
ghost use Rattle.judge_calls.specs.declared.event.Event.{Event};
ghost use Rattle.judge_search.specs.Configurations.{State, thread_at, first_answer};
ghost use Rattle.judge_search.specs.Configurations.{calls_with_progress};
ghost use Rattle.judge_search.specs.Leads.{LeadsTo, LeadsNowhere, CallLeadsTo, CallLeadsNowhere};

use crate::configuration::{Configuration, OpenCall, Progress, calls_with_progress};
use crate::place_reply::PlaceReply;
use crate::places::call_at;
use crate::progress::{is_wrong, progress_of};
use crate::replies::reply_for;
use crate::step_of::{Move, move_of};
use flume_core::error::NoMemory;
use flume_model::step::Reply;
use judge_calls::call::{Answer, Call};
use judge_calls::event::Event;
use judge_calls::stage::{Stage, stage_after};
use std::alloc::Allocator;

/// The result of a move.
#[derive(Drop)]
pub enum Outcome<A: Allocator> {
    Leads(Configuration<A>),
    Same,
    /// No explanation has this move.
    Nowhere,
    NoMemory,
}

impl<A: Allocator + Copy> Configuration<A> {
    /// The result of a move of this open call, which is recorded to return `recorded`, if anything.
    pub fn after<T: Copy + Eq + Drop>(
        &self,
        alloc: A,
        events: &[Event<T, A>],
        recorded: Option<&Answer<T, A>>,
        one: OpenCall,
        other: bool,
        refused: bool,
    ) -> Outcome<A>
        ensures leads { (new : State) → result ≡ Outcome.Leads new
            → (rest : List (Event T A)) (t : ℕ) → Contains self.now.calls one
            → thread_at events.now one.place ≡ Some t
            → first_answer t rest ≡ option_copied recorded.entry
            → LeadsTo T.eq events.now self.now rest t other refused new }
        ensures same { result ≡ Outcome.Same
            → (rest : List (Event T A)) (t : ℕ) → Contains self.now.calls one
            → thread_at events.now one.place ≡ Some t
            → first_answer t rest ≡ option_copied recorded.entry
            → LeadsTo T.eq events.now self.now rest t other refused self.now }
        ensures nowhere { result ≡ Outcome.Nowhere
            → (rest : List (Event T A)) (t : ℕ) → Contains self.now.calls one
            → thread_at events.now one.place ≡ Some t
            → first_answer t rest ≡ option_copied recorded.entry
            → LeadsNowhere T.eq events.now self.now rest t other refused }
    {
        let Some(call) = call_at(events, one.place) else {
            return Outcome::Nowhere;
        };
        let Some(mv) = move_of(call, one.progress, other) else {
            return Outcome::Nowhere;
        };
        if refused {
            self.after_refusal::<T>(alloc, call, recorded, one, mv)
        } else {
            self.after_move(alloc, events, call, recorded, one, mv)
        }
    }

    fn after_refusal<T: Copy + Eq + Drop>(
        &self,
        alloc: A,
        call: &Call<T>,
        recorded: Option<&Answer<T, A>>,
        one: OpenCall,
        mv: Move,
    ) -> Outcome<A>
        ensures leads { (events : List (Event T A)) (new : State) → result ≡ Outcome.Leads new
            → CallLeadsTo T.eq events self.now (option_copied recorded.entry) one call.now mv true
            new }
        ensures same { (events : List (Event T A)) → result ≡ Outcome.Same
            → CallLeadsTo T.eq events self.now (option_copied recorded.entry) one call.now mv true
            self.now }
        ensures nowhere { (events : List (Event T A)) → result ≡ Outcome.Nowhere
            → CallLeadsNowhere T.eq events self.now (option_copied recorded.entry) one call.now mv
            true }
    {
        if !self.may_refuse(mv, one.place) {
            return Outcome::Nowhere;
        }
        let stage = stage_after(call, one.progress.stage(), Reply::NoMemory(None));
        if is_wrong(call, recorded, &stage) {
            return Outcome::Nowhere;
        }
        let progress = progress_of(&stage);
        if progress == one.progress {
            return Outcome::Same;
        }
        match self.with_progress(alloc, one.place, progress) {
            Some(new) => Outcome::Leads(new),
            None => Outcome::NoMemory,
        }
    }

    fn after_move<T: Copy + Eq + Drop>(
        &self,
        alloc: A,
        events: &[Event<T, A>],
        call: &Call<T>,
        recorded: Option<&Answer<T, A>>,
        one: OpenCall,
        mv: Move,
    ) -> Outcome<A>
        ensures leads { (new : State) → result ≡ Outcome.Leads new
            → CallLeadsTo T.eq events.now self.now (option_copied recorded.entry) one call.now mv
            false new }
        ensures same { result ≡ Outcome.Same
            → CallLeadsTo T.eq events.now self.now (option_copied recorded.entry) one call.now mv
            false self.now }
        ensures nowhere { result ≡ Outcome.Nowhere
            → CallLeadsNowhere T.eq events.now self.now (option_copied recorded.entry) one call.now
            mv false }
    {
        let Some(mut changed) = self.try_clone(alloc) else {
            return Outcome::NoMemory;
        };
        let Some(reply_by_place) = changed.make(mv, one.place) else {
            return Outcome::NoMemory;
        };
        let Some(reply) = self.reply_to(alloc, reply_by_place, events, call) else {
            return Outcome::NoMemory;
        };
        let stage = stage_after(call, one.progress.stage(), reply);
        if is_wrong(call, recorded, &stage) {
            return Outcome::Nowhere;
        }
        let progress = progress_of(&stage);
        if progress == one.progress && changed.is_same(self) {
            return Outcome::Same;
        }
        match self.calls_with(alloc, one.place, progress) {
            Some(calls) => Outcome::Leads(changed.with_calls(calls)),
            None => Outcome::NoMemory,
        }
    }

    /// The answer to which a move brings this open call that isn't refused, if to any.
    pub fn answer_of<T: Copy + Eq + Drop>(
        &self,
        alloc: A,
        events: &[Event<T, A>],
        one: OpenCall,
        other: bool,
    ) -> Result<Option<Answer<T, A>>, NoMemory> {
        let Some(call) = call_at(events, one.place) else {
            return Ok(None);
        };
        let Some(mv) = move_of(call, one.progress, other) else {
            return Ok(None);
        };
        let Some(mut changed) = self.try_clone(alloc) else {
            return Err(NoMemory);
        };
        let Some(reply_by_place) = changed.make(mv, one.place) else {
            return Err(NoMemory);
        };
        let Some(reply) = self.reply_to(alloc, reply_by_place, events, call) else {
            return Err(NoMemory);
        };
        match stage_after(call, one.progress.stage(), reply) {
            Stage::Answered(answer) => Ok(Some(answer)),
            _ => Ok(None),
        }
    }

    fn reply_to<T: Copy + Eq + Drop>(
        &self,
        alloc: A,
        reply_by_place: PlaceReply,
        events: &[Event<T, A>],
        call: &Call<T>,
    ) -> Option<Reply<T, A>>
        ensures corresponds { IfSome result (λ reply.
            Corresponds events.now 0 self.now.queue reply_by_place reply) }
    {
        reply_for(
            alloc,
            reply_by_place,
            call.message(),
            events,
            self.queue.as_slice(),
        )
    }

    fn calls_with(&self, alloc: A, place: usize, progress: Progress) -> Option<Vec<OpenCall, A>>
        ensures calls_with_progress { IfSome result (λ calls.
            calls.items ≡ calls_with_progress place progress self.now.calls) }
    {
        calls_with_progress(self.calls.as_slice(), alloc, place, progress).ok()
    }

    fn with_calls(self, calls: Vec<OpenCall, A>) -> Self
        ensures calls { result ≡ record self { calls = calls.items } }
    {
        Configuration { calls, ..self }
    }
}
