//! Laws of replies. These functions do nothing: each contract is a law.
ghost use Rattle.std.specs.Prelude.{◌≡◌, ◌↔◌, Option, reverse};
ghost use Rattle.flume_model.specs.Channel.{channel};
ghost use Rattle.flume_model.specs.Log.{Log, Opening};
ghost use Rattle.flume_model.specs.Replies.{IsReply, IsRun, SameReply};
ghost use Rattle.flume_model.specs.declared.step.Reply.{Reply};
ghost use Rattle.flume_model.specs.declared.step.Step.{Step};
ghost use Rattle.flume_state.specs.State.{State};
ghost use Rattle.flume_core.specs.Represents.{Represents};
ghost use Rattle.flume_core.specs.NoMemoryRule.{NoMemoryIsLawful};
ghost use Rattle.flume_history.specs.Equal.{equal_replies, Equals};
ghost use Rattle.flume_history.specs.Histories.{IsHistory};
ghost use Rattle.flume_history.specs.SameRuns.{IsNoMemory, SameLog, SameSteps};
ghost use Rattle.flume_history.specs.HandedIn.{handed_in};

use flume_model::step::Reply;
use std::alloc::Allocator;

/// After each run, a step has at most one lawful reply other than `NoMemory`.
pub fn replies_are_determined<T, A: Allocator>()
    ensures same { (opening : Opening) (log : Log T A) (step : Step T) (reply other : Reply T A)
        → IsRun opening log
        → IsReply (channel opening log) step reply → IsReply (channel opening log) step other
        → (IsNoMemory reply → ⊥) → (IsNoMemory other → ⊥) → SameReply reply other }
{}

/// Runs of the same steps, of which the same ones ran out of memory, have the same replies.
pub fn runs_are_determined<T, A: Allocator>()
    ensures same { (opening : Opening) (log other : Log T A)
        → IsRun opening log → IsRun opening other → SameSteps log other → SameLog log other }
{}

/// The steps of a channel with its replies are a history.
pub fn runs_are_histories<T: Eq, A: Allocator>()
    ensures history { (opening : Opening) (log : Log T A) → IsRun opening log
        → IsHistory (Equals T.eq) opening (reverse log) }
{}

/// The state says whether `NoMemory` is lawful for a step; it hands back what the step handed in.
pub fn no_memory_is_lawful_as_defined<T, S, A: Allocator>()
    ensures allowed { (opening : Opening) (log : Log T A) (s : State T S) (step : Step T)
        → Represents opening log s
        → NoMemoryIsLawful s step
        ↔ IsReply {A = A} (channel opening log) step (Reply.NoMemory (handed_in step)) }
    ensures no_other { (opening : Opening) (log : Log T A) (s : State T S) (step : Step T)
        (back : Option T) → Represents opening log s
        → IsReply {A = A} (channel opening log) step (Reply.NoMemory back)
        → back ≡ handed_in step }
{}

/// Replies are equal if their cases and what they hold are equal.
pub fn replies_are_equal_by_case<T: PartialEq, A: Allocator>()
    ensures same { (recorded reply : Reply T A)
        → ⟦<Reply<T, A> as PartialEq>⟧.eq recorded reply ≡ equal_replies T.eq recorded reply }
{}
