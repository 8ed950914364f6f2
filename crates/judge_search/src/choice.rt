//! What may come next in an explanation.
ghost use Rattle.std.specs.Prelude.{◌≡◌, ◌<◌, ◌++◌, ◌⊎◌, ◌∷◌, [], true, false, length, Bool};
ghost use Rattle.std.specs.Prelude.{IfSome, IfNone, IsTrue};
ghost use Rattle.std.specs.List.{Contains};
ghost use Rattle.judge_search.specs.Dead.{CoverNext, AreSteps};
ghost use Rattle.judge_search.specs.declared.configuration.OpenCall.{OpenCall};

use crate::configuration::{Configuration, OpenCall, Progress};
use crate::places::call_of;
use judge_calls::event::Event;
use std::alloc::Allocator;

/// What comes next: the next event, or a step.
#[derive(Clone, Copy, Debug, Drop)]
pub enum Choice {
    TakeEvent,
    /// The next step of an open call or the other one, with memory or refused it.
    MakeStep {
        call: OpenCall,
        other: bool,
        refused: bool,
    },
}

impl<A: Allocator + Copy> Configuration<A> {
    /// The call that the event at a place returns, if it isn't done; else only the event may come.
    pub fn returning_call<T: Copy + Eq + Drop>(
        &self,
        events: &[Event<T, A>],
        place: usize,
    ) -> Option<OpenCall>
        requires { place < length events.now }
        ensures event_only { IfNone result (CoverNext T.eq events.now place self.now
            (Choice.TakeEvent ∷ [])) }
    {
        match &events[place] {
            Event::Begins { .. } => None,
            Event::Returns { thread, .. } => match call_of(self.calls.as_slice(), events, *thread) {
                Some(own) if !is_done(own.progress) => Some(own),
                _ => None,
            },
        }
    }

    /// What may come next, the event last, to be tried first. `None`: an allocation failed.
    pub fn choices(&self, alloc: A, own: OpenCall) -> Option<Vec<Choice, A>>
        ensures event { IfSome result (λ choices. Contains choices.items Choice.TakeEvent) }
        ensures steps { IfSome result (λ choices. AreSteps choices.items self.now.calls) }
    {
        all_choices(alloc, self.calls.as_slice(), own)
    }
}

fn is_done(progress: Progress) -> bool
    ensures done { IsTrue result → progress ≡ Progress.Done }
{
    match progress {
        Progress::Done => true,
        _ => false,
    }
}

fn all_choices<A: Allocator + Copy>(
    alloc: A,
    calls: &[OpenCall],
    own: OpenCall,
) -> Option<Vec<Choice, A>>
    ensures event { IfSome result (λ choices. Contains choices.items Choice.TakeEvent) }
    ensures steps { IfSome result (λ choices. AreSteps choices.items calls.now) }
{
    let mut choices = Vec::new(alloc);
    for call in calls {
        if !push_steps_unless(&mut choices, *call, own) {
            return None;
        }
    }
    if push_steps(&mut choices, own) && choices.push(Choice::TakeEvent).is_ok() {
        Some(choices)
    } else {
        None
    }
}

fn push_steps_unless<A: Allocator + Copy>(
    choices: &mut Vec<Choice, A>,
    call: OpenCall,
    own: OpenCall,
) -> bool
    ensures old_choices { IsTrue result → (choice : Choice) → Contains choices.old.items choice
        → Contains choices.new.items choice }
    ensures steps { IsTrue result → (other refused : Bool)
        → Contains choices.new.items (Choice.MakeStep call other refused) ⊎ (call ≡ own) }
{
    call == own || push_steps(choices, call)
}

fn push_steps<A: Allocator + Copy>(choices: &mut Vec<Choice, A>, call: OpenCall) -> bool
    ensures steps { IsTrue result → choices.new.items ≡ choices.old.items
        ++ (Choice.MakeStep call true true ∷ Choice.MakeStep call false true
        ∷ Choice.MakeStep call true false ∷ Choice.MakeStep call false false ∷ []) }
{
    let steps = [
        Choice::MakeStep {
            call,
            other: true,
            refused: true,
        },
        Choice::MakeStep {
            call,
            other: false,
            refused: true,
        },
        Choice::MakeStep {
            call,
            other: true,
            refused: false,
        },
        Choice::MakeStep {
            call,
            other: false,
            refused: false,
        },
    ];
    choices.extend_from_slice(&steps).is_ok()
}
