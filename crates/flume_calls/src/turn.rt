//! What a call does at a time.
ghost use Rattle.std.specs.Prelude.{List};
ghost use Rattle.flume_model.specs.declared.step.Step.{Step};
ghost use Rattle.flume_model.specs.declared.step.Reply.{Reply};
ghost use Rattle.flume_state.specs.State.{State};
ghost use Rattle.flume_calls.specs.Batches.{IsBatch};

use flume_core::chan::Chan;
use std::alloc::Allocator;

/// Steps of a channel with nothing between them, and the answer to their replies. It doesn't wait.
pub trait Turn<T, S, A: Allocator> {
    /// What the turn answers.
    type Answer;

    ghost does: { Self → State T S → State T S → Self.Answer → Type 0 };

    // Which steps, with which replies, by the answer.
    ghost makes: { Self → List (Step T × Reply T A) → Self.Answer → Type 0 };

    ghost leads: { (turn : Self) (old new : State T S) (answer : Self.Answer)
        → does turn old new answer → IsBatch (makes turn) old new answer };

    ghost answers: { Self → Self.Answer → Type 0 };

    /// Makes the steps, and answers to their replies.
    fn apply(self, chan: &mut Chan<T, S, A>) -> Self::Answer
        ensures does { does self chan.old chan.new result }
        ensures answers { answers self result };
}
