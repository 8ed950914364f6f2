//! Which choices are tried first: any order is correct.
ghost use Rattle.std.specs.Prelude.{IsTrue};
ghost use Rattle.std.specs.List.{Contains};
ghost use Rattle.judge_search.specs.declared.choice.Choice.{Choice};

use crate::call_records::{CallRecords, NEVER};
use crate::choice::Choice;
use crate::configuration::{Configuration, OpenCall, Progress};
use crate::replies::message_at;
use judge_calls::event::Event;
use std::alloc::Allocator;

impl<A: Allocator + Copy> CallRecords<A> {
    fn received(&self, call: OpenCall) -> usize {
        self.of(call.place).received
    }

    // The other open send whose message is received first.
    fn first_send<T: Copy + Eq + Drop>(
        &self,
        events: &[Event<T, A>],
        calls: &[OpenCall],
        own: OpenCall,
    ) -> Option<OpenCall> {
        let mut first: Option<OpenCall> = None;
        for call in calls {
            let sends = message_at(events, call.place).is_some();
            let sooner = match first {
                Some(first) => self.received(*call) < self.received(first),
                None => true,
            };
            if sends && sooner && *call != own && call.progress != Progress::Done {
                first = Some(*call);
            }
        }
        first
    }

    fn partner(&self, calls: &[OpenCall], own: OpenCall) -> Option<OpenCall> {
        let shared = self.received(own);
        if shared == NEVER {
            return None;
        }
        for call in calls {
            if *call != own && self.received(*call) == shared {
                return Some(*call);
            }
        }
        None
    }

    /// Adds the steps to be tried first once more. `false`: an allocation failed.
    pub fn push_first<T: Copy + Eq + Drop>(
        &self,
        events: &[Event<T, A>],
        configuration: &Configuration<A>,
        own: OpenCall,
        choices: &mut Vec<Choice, A>,
    ) -> bool
        ensures old_choices { IsTrue result → (choice : Choice) → Contains choices.old.items choice
            → Contains choices.new.items choice }
    {
        let calls = configuration.calls.as_slice();
        let first = self.first_send(events, calls, own);
        let sooner = self.sooner(first, configuration, own);
        push_both(choices, first, self.partner(calls, own)) && push_both(choices, Some(own), sooner)
    }

    // `first`, if its message is received before that of `own`, and it has room at once.
    fn sooner(
        &self,
        first: Option<OpenCall>,
        configuration: &Configuration<A>,
        own: OpenCall,
    ) -> Option<OpenCall> {
        let own = self.received(own);
        if own == NEVER || configuration.has_no_room() {
            return None;
        }
        match first {
            Some(call) if self.received(call) < own => first,
            _ => None,
        }
    }
}

fn push_both<A: Allocator + Copy>(
    choices: &mut Vec<Choice, A>,
    one: Option<OpenCall>,
    other: Option<OpenCall>,
) -> bool
    ensures old_choices { IsTrue result → (choice : Choice) → Contains choices.old.items choice
        → Contains choices.new.items choice }
{
    push_step(choices, one) && push_step(choices, other)
}

fn push_step<A: Allocator + Copy>(choices: &mut Vec<Choice, A>, call: Option<OpenCall>) -> bool
    ensures old_choices { IsTrue result → (choice : Choice) → Contains choices.old.items choice
        → Contains choices.new.items choice }
{
    match call {
        Some(call) => choices
            .push(Choice::MakeStep {
                call,
                other: false,
                refused: false,
            })
            .is_ok(),
        None => true,
    }
}
