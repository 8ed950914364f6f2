//! The progress of a call is its stage without the ticket.
ghost use Rattle.std.specs.Prelude.{◌≡◌};
ghost use Rattle.std.specs.Option.{option_copied};
ghost use Rattle.judge_calls.specs.declared.stage.Stage.{Stage};
ghost use Rattle.judge_search.specs.Progresses.{progress_of, clear_ticket, is_wrong};

use crate::configuration::Progress;
use judge_calls::call::{Answer, Call};
use judge_calls::stage::Stage;
use std::alloc::Allocator;

impl Progress {
    /// The stage of a call that has no answer yet, with the ticket 0.
    pub fn stage<T, A: Allocator>(self) -> Stage<T, A>
        ensures stage { (own : Stage T A) → progress_of own ≡ self → (self ≡ Progress.Done → ⊥)
            → result ≡ clear_ticket own }
    {
        match self {
            Progress::Begun => Stage::Begun,
            Progress::Tried => Stage::Tried,
            Progress::Parked => Stage::Parked(0),
            Progress::Refused => Stage::Refused(0),
            Progress::Done => Stage::Begun,
        }
    }
}

/// The progress of a call at this stage.
pub fn progress_of<T, A: Allocator>(stage: &Stage<T, A>) -> Progress
    ensures progress { result ≡ progress_of stage.now }
{
    match stage {
        Stage::Begun => Progress::Begun,
        Stage::Tried => Progress::Tried,
        Stage::Parked(_) => Progress::Parked,
        Stage::Refused(_) => Progress::Refused,
        Stage::Answered(_) => Progress::Done,
    }
}

/// Whether a call at this stage has come to another answer than the recorded one, if one is.
pub fn is_wrong<T: Copy + Eq, A: Allocator>(
    call: &Call<T>,
    recorded: Option<&Answer<T, A>>,
    stage: &Stage<T, A>,
) -> bool
    ensures wrong { result ≡ is_wrong T.eq call.now (option_copied recorded.entry) stage.now }
{
    match (recorded, stage) {
        (Some(recorded_answer), Stage::Answered(_)) => !call.may_return(stage, recorded_answer),
        _ => false,
    }
}
