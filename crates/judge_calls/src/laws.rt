//! Laws of answers and of explanations. These functions do nothing: each contract is a law.
ghost use Rattle.std.specs.Prelude.{◌≡◌, ℕ, List, take};
ghost use Rattle.flume_model.specs.Log.{Opening};
ghost use Rattle.judge_calls.specs.Answers.{equal_answers};
ghost use Rattle.judge_calls.specs.Explanations.{IsExplained};
ghost use Rattle.judge_calls.specs.LateSteps.{IsExplainedLate};
ghost use Rattle.judge_calls.specs.NoIdleSteps.{IsExplainedWithoutIdle};
ghost use Rattle.judge_calls.specs.Patterns.{IsOutOfOrder, IsUnsent};
ghost use Rattle.judge_calls.specs.declared.call.Answer.{Answer};
ghost use Rattle.judge_calls.specs.declared.event.Event.{Event};

use crate::call::Answer;
use std::alloc::Allocator;

/// Answers are equal if their cases and what they hold are equal.
pub fn answers_are_equal_by_case<T: PartialEq, A: Allocator>()
    ensures same { (recorded own : Answer T A)
        → ⟦<Answer<T, A> as PartialEq>⟧.eq recorded own ≡ equal_answers T.eq recorded own }
{}

/// Explained events have an explanation whose steps come late, so a search need try no others.
pub fn steps_may_come_late<T: Eq, A: Allocator>()
    ensures late { (opening : Opening) (events : List (Event T A))
        → IsExplained T.eq opening events → IsExplainedLate T.eq opening events }
{}

/// A beginning of explained events is explained, so the first event that isn't is found by halving.
pub fn beginnings_are_explained<T: Eq, A: Allocator>()
    ensures beginning { (opening : Opening) (events : List (Event T A)) (n : ℕ)
        → IsExplained T.eq opening events → IsExplained T.eq opening (take n events) }
{}

/// Late explanations can do without idle steps, so a search need try none.
pub fn idle_steps_are_needless<T: Eq, A: Allocator>()
    ensures no_idle { (opening : Opening) (events : List (Event T A))
        → IsExplainedLate T.eq opening events → IsExplainedWithoutIdle T.eq opening events }
{}

/// Events are unexplained if they end in the receipt of a message of which no send has begun.
pub fn only_what_was_sent_is_received<T: Eq, A: Allocator>()
    ensures sent { (opening : Opening) (events : List (Event T A))
        → IsExplained T.eq opening events → IsUnsent T.eq events → ⊥ }
{}

/// Events are unexplained if they end in the receipt of a message out of order.
pub fn messages_are_received_in_order<T: Eq, A: Allocator>()
    ensures order { (opening : Opening) (events : List (Event T A))
        → IsExplained T.eq opening events → IsOutOfOrder T.eq events → ⊥ }
{}
