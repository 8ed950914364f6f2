//! A program that reads its input to the end, and prints one text.
ghost use Rattle.flume_script.specs.Serving.{Finishes, Serves};
ghost use Rattle.std.specs.Prelude.{◌≡◌, ℕ, List, ◌++◌, Some, IfOk};

use crate::ScriptOutput;
use flume_core::error::NoMemory;
use std::alloc::{Allocator, Global};
use std::io::{ErrorKind, Read, Write};
use std::process::ExitCode;
use std::{env, io};

const FAULT: u8 = 4;

const OUT_OF_MEMORY: &[u8] = b"out of memory\n";

/// What a program makes of its input.
pub trait Program<A: Allocator> {
    ghost prints: { Self → List ℕ → List ℕ → ℕ → Type 0 };

    /// What it prints, and the exit status. `NoMemory`: an allocation failed.
    fn run(&self, alloc: A, input: &[u8]) -> Result<ScriptOutput<A>, NoMemory>
        ensures prints { IfOk result (λ output.
            prints self.now input.now output.text.items output.status) };

    /// Why a line is wrong: what goes to standard error if the status is 2.
    fn explain(
        &self,
        alloc: A,
        input: &[u8],
        printed: &ScriptOutput<A>,
    ) -> Result<String<A>, NoMemory>;
}

/// `serve` on the standard streams; the status is 4 if the arguments couldn't be read.
pub fn serve_on_host<P: Program<Global> + Drop>(
    rt: &HostRuntime,
    program: io::Result<P>,
) -> ExitCode {
    let Ok(program) = program else {
        return FAULT.into();
    };
    let (mut output, mut messages) = (io::writer(rt), rt.stderr());
    let (alloc, mut input) = (rt.alloc(), rt.reader());
    serve(alloc, &program, &mut input, &mut output, &mut messages).into()
}

/// Whether one of the program's arguments is this word.
pub fn asks_for(rt: &HostRuntime, word: &str) -> io::Result<bool> {
    Ok(
        env::args(rt)?
            .skip(1)
            .any(|argument| argument.as_str() == word),
    )
}

/// Reads the input to its end, prints what the program makes of it, and returns the exit status:
/// 3 if memory is out, 4 if the input can't be read or the text not be written, or the program's.
pub fn serve<A: Allocator + Copy, P: Program<A>, R: Read, W: Write, M: Write>(
    alloc: A,
    program: &P,
    input: &mut R,
    output: &mut W,
    messages: &mut M,
) -> u8
    ensures served { (bytes before : List ℕ) → R.remaining input.old ≡ Some bytes
        → W.contents output.old ≡ Some before
        → Serves (P.prints program.now bytes) before (W.contents output.new) result }
{
    let mut bytes = Vec::new(alloc);
    if let Err(fault) = input.read_to_end(&mut bytes) {
        return match fault.kind() {
            ErrorKind::OutOfMemory => finish(output, OUT_OF_MEMORY, 3),
            _ => FAULT,
        };
    }
    match program.run(alloc, &bytes) {
        Ok(prints) => {
            if prints.status == 2 {
                if let Ok(why) = program.explain(alloc, &bytes, &prints) {
                    let _ = messages.write_all(why.as_bytes());
                }
            }
            finish(output, &prints.text, prints.status)
        }
        Err(NoMemory) => finish(output, OUT_OF_MEMORY, 3),
    }
}

fn finish<W: Write>(output: &mut W, text: &[u8], status: u8) -> u8
    ensures finished { (before : List ℕ) → W.contents output.old ≡ Some before
        → Finishes (before ++ text.now) status (W.contents output.new) result }
{
    match output.write_all(text) {
        Ok(()) => status,
        Err(_) => FAULT,
    }
}
