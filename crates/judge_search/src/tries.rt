//! Where a choice leads a configuration.
ghost use Rattle.std.specs.Prelude.{◌≡◌, ◌<◌, ◌+◌, ℕ, false, IsTrue, length, drop, Option};
ghost use Rattle.std.specs.Option.{option_copied};
ghost use Rattle.std.specs.List.{Contains};
ghost use Rattle.judge_calls.specs.declared.event.Event.{Event};
ghost use Rattle.judge_search.specs.Configurations.{State, first_answer, thread_at};
ghost use Rattle.judge_search.specs.Dead.{IsSpent, LeadsOnly};
ghost use Rattle.judge_search.specs.declared.choice.Choice.{Choice};

use crate::choice::Choice;
use crate::configuration::{Configuration, OpenCall};
use crate::moves::Outcome;
use crate::places::thread_at;
use judge_calls::call::Answer;
use judge_calls::event::Event;
use std::alloc::Allocator;

/// The result of a choice.
#[derive(Drop)]
pub enum ChoiceOutcome<A: Allocator> {
    /// This configuration comes next, before the event at this place.
    Leads(Configuration<A>, usize),
    /// The search needs nothing of this choice.
    Spent,
    NoMemory,
}

impl<A: Allocator + Copy> Configuration<A> {
    /// The result of a choice from a configuration at a place.
    pub fn try_choice<T: Copy + Eq + Drop>(
        &self,
        alloc: A,
        events: &[Event<T, A>],
        place: usize,
        choice: Choice,
    ) -> ChoiceOutcome<A>
        requires { place < length events.now }
        ensures leads { (next : State) (index : ℕ) → result ≡ ChoiceOutcome.Leads next index
            → LeadsOnly T.eq events.now place self.now choice index next }
        ensures spent { result ≡ ChoiceOutcome.Spent
            → IsSpent T.eq events.now place self.now choice }
    {
        match choice {
            Choice::TakeEvent => self.try_event(alloc, events, place),
            Choice::MakeStep {
                call,
                other,
                refused,
            } => self.try_step(alloc, events, place, call, other, refused),
        }
    }

    fn try_event<T: Copy + Eq + Drop>(
        &self,
        alloc: A,
        events: &[Event<T, A>],
        place: usize,
    ) -> ChoiceOutcome<A>
        requires { place < length events.now }
        ensures leads { (next : State) (index : ℕ) → result ≡ ChoiceOutcome.Leads next index
            → LeadsOnly T.eq events.now place self.now Choice.TakeEvent index next }
        ensures spent { result ≡ ChoiceOutcome.Spent
            → IsSpent T.eq events.now place self.now Choice.TakeEvent }
    {
        if !self.may_take_event(events, place) {
            return ChoiceOutcome::Spent;
        }
        let Some(mut new) = self.try_clone(alloc) else {
            return ChoiceOutcome::NoMemory;
        };
        if new.take_event(events, place) {
            ChoiceOutcome::Leads(new, place + 1)
        } else {
            ChoiceOutcome::NoMemory
        }
    }

    fn try_step<T: Copy + Eq + Drop>(
        &self,
        alloc: A,
        events: &[Event<T, A>],
        place: usize,
        call: OpenCall,
        other: bool,
        refused: bool,
    ) -> ChoiceOutcome<A>
        requires { place < length events.now }
        ensures leads { (next : State) (index : ℕ) → result ≡ ChoiceOutcome.Leads next index
            → LeadsOnly T.eq events.now place self.now (Choice.MakeStep call other refused) index
            next }
        ensures spent { result ≡ ChoiceOutcome.Spent
            → IsSpent T.eq events.now place self.now (Choice.MakeStep call other refused) }
    {
        if !has_call(self.calls.as_slice(), call) {
            return ChoiceOutcome::Spent;
        }
        let recorded = recorded(events, place, call);
        match self.after(alloc, events, recorded, call, other, refused) {
            Outcome::Leads(new) => ChoiceOutcome::Leads(new, place),
            Outcome::Same => ChoiceOutcome::Spent,
            Outcome::Nowhere => ChoiceOutcome::Spent,
            Outcome::NoMemory => ChoiceOutcome::NoMemory,
        }
    }
}

fn has_call(calls: &[OpenCall], call: OpenCall) -> bool
    ensures has { IsTrue result → Contains calls.now call }
    ensures absent { result ≡ false → Contains calls.now call → ⊥ }
{
    calls.contains(&call)
}

pub(crate) fn recorded<T: Copy + Eq + Drop, A: Allocator + Copy>(
    events: &[Event<T, A>],
    place: usize,
    call: OpenCall,
) -> Option<&Answer<T, A>>
    ensures first { (t : ℕ) → thread_at events.now call.place ≡ Some t
        → first_answer t (drop place events.now) ≡ option_copied result }
{
    let own = thread_at(events, call.place)?;
    for next in place..events.len() {
        if let Event::Returns { thread, answer } = &events[next] {
            if *thread == own {
                return Some(answer);
            }
        }
    }
    None
}
