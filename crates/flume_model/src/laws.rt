//! Laws of the definitions. These functions do nothing: each contract is a law.
ghost use Rattle.std.specs.Prelude.{◌≡◌, ◌∷◌, ℕ, ◌<◌, true, false, length, take};
ghost use Rattle.flume_model.specs.Log.{Log, Opening};
ghost use Rattle.flume_model.specs.Parked.{entries};
ghost use Rattle.flume_model.specs.Replies.{IsRun};
ghost use Rattle.flume_model.specs.declared.step.Step.{Step};
ghost use Rattle.flume_model.specs.declared.step.Reply.{Reply};
ghost use Rattle.flume_model.specs.Channel.{has_ticket};
ghost use Rattle.flume_model.specs.Limits.{IsAtCapacity};
ghost use Rattle.flume_model.specs.Line.{line, capacity, queue_len, blocked, next_ticket, is_live};
ghost use Rattle.flume_model.specs.Offers.{offers, kept, hand_outs};
ghost use Rattle.flume_model.specs.Laws.{InOrder, Rising};
ghost use Rattle.flume_model.specs.Theorem.{TheoremThroughout};
ghost use Rattle.flume_model.specs.EqualSteps.{equal_steps};

pub mod capacity;
pub mod users;
pub mod waits;

use crate::step::Step;
use std::alloc::Allocator;

/// In each run, messages are handed out in the order of the kept offers.
pub fn hands_out_in_order<T, A: Allocator>()
    ensures law { (opening : Opening) (log : Log T A)
        → IsRun opening log → InOrder (entries opening log) log }
{}

/// The theorem held at each moment of a run.
pub fn theorem_holds_throughout<T, A: Allocator>()
    ensures law { (opening : Opening) (log : Log T A)
        → IsRun opening log → TheoremThroughout opening log }
{}

/// In each run, each ticket is issued once: those of the offers rise, and are below the next one.
pub fn tickets_rise<T, A: Allocator>()
    ensures law { (opening : Opening) (log : Log T A)
        → IsRun opening log → Rising (next_ticket opening log) (offers log) }
{}

/// In each run, no step moves the place of a message that was handed out.
pub fn withdrawals_move_nothing_handed_out<T, A: Allocator>()
    ensures law { (opening : Opening) (p : Step T × Reply T A) (past : Log T A)
        → IsRun opening (p ∷ past)
        → take (hand_outs past) (kept (p ∷ past)) ≡ take (hand_outs past) (kept past) }
{}

/// In each run, a live ticket's offer is kept, and an accepted one is before all blocked ones.
pub fn accepted_tickets_are_below_blocked_ones<T, A: Allocator>()
    ensures kept { (opening : Opening) (log : Log T A) → IsRun opening log
        → (t : ℕ) → is_live log t ≡ true → has_ticket t (kept log) ≡ true }
    ensures below { (opening : Opening) (log : Log T A) → IsRun opening log
        → (t u : ℕ) → is_live log t ≡ true → has_ticket t (blocked opening log) ≡ false
        → has_ticket u (blocked opening log) ≡ true → t < u }
{}

/// In each run, a sender is blocked only if the queue is at or past the capacity.
pub fn senders_block_only_at_capacity<T, A: Allocator>()
    ensures law { (opening : Opening) (log : Log T A) → IsRun opening log
        → queue_len opening log < length (line log)
        → IsAtCapacity (capacity opening log) (queue_len opening log) }
{}

/// Steps are equal if their cases are the same and what they hold is equal.
pub fn steps_are_equal_by_case<T: PartialEq>()
    ensures same { (step other : Step T)
        → ⟦<Step<T> as PartialEq>⟧.eq step other ≡ equal_steps T.eq step other }
{}
