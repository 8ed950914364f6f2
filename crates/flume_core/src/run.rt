//! Lists of steps.
ghost use Rattle.std.specs.Prelude.{◌≡◌, ◌≤◌, ◌++◌, List, vec_len, IfOk, IfErr, OnErr};
ghost use Rattle.flume_model.specs.Log.{Log, Opening};
ghost use Rattle.flume_model.specs.Offers.{after};
ghost use Rattle.flume_model.specs.Theorem.{TheoremThroughout};
ghost use Rattle.flume_model.specs.declared.step.Reply.{Reply};
ghost use Rattle.flume_model.specs.declared.step.Step.{Step};
ghost use Rattle.flume_state.specs.State.{State};
ghost use Rattle.flume_core.specs.Represents.{Represents};
ghost use Rattle.flume_core.specs.Transitions.{AreTransitions};

use crate::chan::Chan;
use flume_model::step::{Reply, Step};
use std::alloc::Allocator;
use std::collections::VecDeque;

/// Does the steps in order. If there is no memory for the replies, the steps come back undone.
/// ```
/// let mut chan: Chan<u64, ()> = Chan::new(alloc, None);
/// let steps = vec![in alloc; Step::TrySend(1), Step::TryRecv]?;
/// let _ = run(alloc, &mut chan, steps); // Ok([Sent { filled: None }, Got(1)])
/// ```
pub fn run<T: Drop, A: Allocator + Copy>(
    alloc: A,
    chan: &mut Chan<T, (), A>,
    steps: Vec<Step<T>, A>,
) -> Result<Vec<Reply<T, A>, A>, Vec<Step<T>, A>>
    ensures steps { IfOk result (λ replies. (opening : Opening) (log : Log T A)
        → Represents opening log chan.old
        → Represents opening (after log steps.items replies.items) chan.new) }
    ensures throughout { IfOk result (λ replies. (opening : Opening) (log : Log T A)
        → Represents opening log chan.old
        → TheoremThroughout opening (after log steps.items replies.items)) }
    ensures transitions { IfOk result (λ replies.
        AreTransitions chan.old steps.items replies.items chan.new) }
    ensures space { chan.old.space ≤ chan.new.space }
    ensures one_each { IfOk result (λ replies. vec_len replies ≡ vec_len steps) }
    ensures returned { IfErr result (λ back. back.items ≡ steps.items) }
    ensures unchanged { OnErr result (chan.new ≡ chan.old) }
{
    let Ok(mut replies) = Vec::with_capacity(alloc, steps.len()) else {
        return Err(steps);
    };
    let mut rest = VecDeque::from_vec(steps);
    while let Some(step) = rest.pop_front() {
        replies.push_reserved(chan.step(step));
    }
    Ok(replies)
}

/// Two runs in a row are one run of the steps of both. Does nothing.
pub fn two_runs_are_one<T, S, A: Allocator>()
    ensures joined { (old mid new : State T S) (steps later : List (Step T))
        (replies answers : List (Reply T A))
        → AreTransitions old steps replies mid → AreTransitions mid later answers new
        → AreTransitions old (steps ++ later) (replies ++ answers) new }
{}
