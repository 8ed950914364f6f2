//! Judges a recording of calls, or a history of steps: could a correct channel have produced it?
#![tactic(auto)]

ghost use Rattle.flume_history.specs.HistoryText.{Judges};
ghost use Rattle.judge_verdicts.specs.Kinds.{IsRecording};
ghost use Rattle.judge_verdicts.specs.CallsText.{JudgesCalls};

mod items;
mod kind;
mod possible;
mod reasons;
mod recording;
mod texts;
mod turns;

use flume_core::error::NoMemory;
use flume_history::script::check_script;
use flume_script::ScriptOutput;
use flume_script::serving::Program;
use kind::is_recording;
use reasons::explain_input;
use recording::judge_recording;
use std::alloc::Allocator;

/// The program that judges its input.
#[derive(Drop)]
pub struct Judge {
    /// Whether it prints steps that explain a recording.
    pub with_steps: bool,
    /// The limit of the search for an explanation of a recording, as of `explain`.
    pub limit: usize,
}

impl<A: Allocator + Copy> Program<A> for Judge {
    ghost prints = { λ judge input text status.
        (IsRecording input → JudgesCalls A judge.with_steps input text status)
        × (¬ IsRecording input → Judges A input text status) };

    fn run(&self, alloc: A, input: &[u8]) -> Result<ScriptOutput<A>, NoMemory> {
        if is_recording(input) {
            judge_recording(alloc, self.with_steps, self.limit, input)
        } else {
            check_script(alloc, input)
        }
    }

    fn explain(
        &self,
        alloc: A,
        input: &[u8],
        printed: &ScriptOutput<A>,
    ) -> Result<String<A>, NoMemory> {
        explain_input(alloc, input, printed)
    }
}
