//! Reads a script from standard input and prints what the channel answers. With `--states` among
//! its arguments, it also prints the channel's states: no clause says what it prints then. It
//! ignores any other argument.
#![tactic(auto)]

ghost use Rattle.std.specs.Prelude.{◌≡◌, false};
ghost use Rattle.flume_script.specs.Program.{Prints};

mod states;
mod texts;

use flume_core::error::NoMemory;
use flume_script::faults::explain_script;
use flume_script::serving::{Program, asks_for, serve_on_host};
use flume_script::{ScriptOutput, run_script};
use std::alloc::Allocator;
use std::process::ExitCode;
use texts::run_with_states;

#[derive(Drop)]
struct Run {
    with_states: bool,
}

impl<A: Allocator + Copy> Program<A> for Run {
    ghost prints = { λ run input text status.
        run.with_states ≡ false → Prints A input text status };

    fn run(&self, alloc: A, input: &[u8]) -> Result<ScriptOutput<A>, NoMemory> {
        if self.with_states {
            run_with_states(alloc, input)
        } else {
            run_script(alloc, input)
        }
    }

    fn explain(
        &self,
        alloc: A,
        input: &[u8],
        _printed: &ScriptOutput<A>,
    ) -> Result<String<A>, NoMemory> {
        explain_script(alloc, input)
    }
}

fn main(rt: HostRuntime) -> ExitCode {
    serve_on_host(
        &rt,
        asks_for(&rt, "--states").map(|with_states| Run { with_states }),
    )
}
