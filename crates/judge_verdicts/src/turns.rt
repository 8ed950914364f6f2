//! Whether each thread has one call at a time.
ghost use Rattle.std.specs.Prelude.{IfNone, IfOk, IfSome, IsTrue, ◌↔◌, ◌<◌, ℕ, List, ◌∷◌, length};
ghost use Rattle.std.specs.Prelude.{reverse};
ghost use Rattle.judge_calls.specs.declared.event.Event.{Event};
ghost use Rattle.judge_verdicts.specs.Turns.{AreInTurn, HasCalls, IsInTurn, IsOutOfTurn};

use flume_core::error::NoMemory;
use judge_calls::call::Call;
use judge_calls::event::Event;
use std::alloc::Allocator;
use std::collections::BTreeMap;

// The calls that are open, by their threads.
type Calls<A> = BTreeMap<usize, Call<u64>, A>;

// The place of the first event that is out of turn, if one is.
pub(crate) fn out_of_turn<A: Allocator + Copy>(
    alloc: A,
    events: &[Event<u64, A>],
) -> Result<Option<usize>, NoMemory>
    ensures within { IfOk result (λ r. IfSome r (λ place. place < length events.now)) }
    ensures found { IfOk result (λ r. IfSome r (IsOutOfTurn events.now)) }
    ensures none { IfOk result (λ r. IfNone r (AreInTurn (reverse events.now))) }
{
    let mut calls = BTreeMap::new(alloc);
    for place in 0..events.len() {
        let event = &events[place];
        if !is_in_turn(&calls, event) {
            return Ok(Some(place));
        }
        if !take_event(&mut calls, event) {
            return Err(NoMemory);
        }
    }
    Ok(None)
}

fn is_in_turn<A: Allocator + Copy>(calls: &Calls<A>, event: &Event<u64, A>) -> bool
    ensures in_turn { (past : List (Event ℕ A)) → HasCalls past calls.now
        → IsTrue result ↔ IsInTurn past event.now }
{
    match event {
        Event::Begins { thread, .. } => calls.get(thread).is_none(),
        Event::Returns { thread, .. } => calls.get(thread).is_some(),
    }
}

fn take_event<A: Allocator + Copy>(calls: &mut Calls<A>, event: &Event<u64, A>) -> bool
    ensures open_after { IsTrue result → (past : List (Event ℕ A)) → HasCalls past calls.old
        → HasCalls (event.now ∷ past) calls.new }
{
    match event {
        Event::Begins { thread, call } => calls.insert(*thread, *call).is_ok(),
        Event::Returns { thread, .. } => {
            let _ = calls.remove(thread);
            true
        }
    }
}
