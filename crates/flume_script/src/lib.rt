//! Scripts: the steps of a channel as text. `./play` of the repository runs them.
#![tactic(auto)]

ghost use Rattle.flume_script.specs.Program.{Answers, Prints};
ghost use Rattle.flume_script.specs.Script.{IsScript, IsStepLine, wrong_text};
ghost use Rattle.std.specs.Prelude.{IfOk, ◌≡◌, ℕ, List};
ghost use Rattle.std.specs.Str.Lines.{lines};

pub mod faults;
pub mod reading;
pub mod serving;
pub mod words;
pub mod writing;

use flume_core::chan::Chan;
use flume_core::error::NoMemory;
use flume_core::run::run;
use flume_model::step::Step;
use reading::{Reading, read_script};
use std::alloc::{Allocator, Global};
use writing::write_replies;

/// What a program prints on standard output, and its exit status.
#[derive(Drop)]
pub struct ScriptOutput<A: Allocator = Global> {
    pub text: Vec<u8, A>,
    pub status: u8,
}

/// What [`run_script`] returns.
pub type Script<A = Global> = ScriptOutput<A>;

/// Runs a script on a new channel: each reply is a line of the text, and the status is 0. If a line
/// is wrong, no step is done: the text names the first wrong line, and the status is 2. `NoMemory`:
/// an allocation failed.
/// ```
/// let script: Script = run_script(alloc, b"unbounded\ntry_send 42\ntry_recv\n")?;
/// script.text;                       // "sent\ngot 42\n"
/// script.status;                     // 0
/// ```
pub fn run_script<A: Allocator + Copy>(alloc: A, input: &[u8]) -> Result<Script<A>, NoMemory>
    ensures prints { IfOk result (λ output. Prints A input.now output.text.items output.status) }
{
    match read_script(alloc, input)? {
        Reading::Wrong { line } => refuse(alloc, line),
        Reading::Right { capacity, steps } => answer(alloc, capacity, steps),
    }
}

/// The output for a script whose first wrong line this is. `NoMemory`: an allocation failed.
pub fn refuse<A: Allocator + Copy>(alloc: A, line: usize) -> Result<ScriptOutput<A>, NoMemory>
    ensures text { IfOk result (λ output. output.text.items ≡ wrong_text line) }
    ensures status { IfOk result (λ output. output.status ≡ 2) }
{
    let mut text = String::new(alloc);
    writeln!(text, "line {line}: not a step")?;
    Ok(ScriptOutput {
        text: text.into_bytes(),
        status: 2,
    })
}

fn answer<A: Allocator + Copy>(
    alloc: A,
    capacity: Option<usize>,
    steps: Vec<Step<u64>, A>,
) -> Result<ScriptOutput<A>, NoMemory>
    ensures answers { IfOk result (λ output. (input : List ℕ)
        → IsScript IsStepLine (lines input) capacity steps.items
        → Answers A input output.text.items output.status) }
{
    let mut chan = Chan::new(alloc, capacity);
    let Ok(replies) = run(alloc, &mut chan, steps) else {
        return Err(NoMemory);
    };
    let text = write_replies(alloc, &replies)?;
    Ok(ScriptOutput { text, status: 0 })
}
