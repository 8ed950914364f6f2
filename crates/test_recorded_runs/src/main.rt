//! Records the calls of threads on channels, and checks the answers.
#![tactic(auto)]

mod arguments;
mod caller;
mod ends;
mod random;
mod run;
mod setup;
mod tally;

use crate::arguments::{Arguments, Request};
use crate::run::{Run, Verdict, judge};
use crate::tally::Tally;
use flume::Runtime;
use judge_recorder::write_recording;
use judge_search::explain::Checked;
use std::process::ExitCode;
use std::random::RandomSource;
use std::{env, io, str};

const USAGE: &str = "test_recorded_runs [RECORDINGS [THREADS [CALLS [LIMIT]]]]

Threads make calls on a channel, and record them; then a search looks for an explanation of what
they recorded. Does so for RECORDINGS channels (200), with THREADS threads (6) and CALLS calls in
all (300), beside those that clone and drop the threads' first ends. A fifth of the channels each
has the capacity 0, 1, 2 or 8, or none. Each other channel is refused memory now and then. A search
is given up after LIMIT configurations (1000000): then its recording may be explained or not.

Prints the first recording that nothing explains, with its number and what the search came to. Else
one line, the same in each run, and on standard error how many of the recordings are explained. More
than a tenth of the searches, and one of less than ten, may not be given up.

Status 0: no recording is wrong. 1: one is, or too many searches were given up. 2: the arguments are
wrong. 3: no memory, or no thread.";

fn main(rt: HostRuntime) -> io::Result<ExitCode> {
    let words: Vec<String> = env::args(&rt)?.skip(1).collect(rt.alloc())?;
    match Arguments::read(words.as_slice()) {
        Request::Help => {
            println!(rt; "{USAGE}")?;
            Ok(ExitCode::SUCCESS)
        }
        Request::Wrong => {
            eprintln!(rt; "{USAGE}")?;
            Ok(ExitCode::from(2))
        }
        Request::Runs(arguments) => run_all(rt, arguments),
    }
}

fn run_all<R: Runtime + RandomSource + Print + Eprint>(
    rt: R,
    arguments: Arguments,
) -> io::Result<ExitCode> {
    let mut tally = Tally::new();
    for number in 0..arguments.recordings {
        let run = match Run::make(rt, arguments, number) {
            Ok(run) => run,
            Err(fault) => {
                eprintln!(rt; "{fault}")?;
                return Ok(ExitCode::from(3));
            }
        };
        match judge(rt.alloc(), &run, arguments.limit) {
            Checked::Explained => tally.count_explained(),
            Checked::GaveUp(_) => tally.count_given_up(),
            Checked::NoMemory => return no_memory(rt),
            checked => return print_wrong(rt, number, Verdict(checked), &run),
        }
    }
    print_tally(rt, arguments, &tally)
}

fn no_memory<R: Runtime + Eprint>(rt: R) -> io::Result<ExitCode> {
    eprintln!(rt; "out of memory")?;
    Ok(ExitCode::from(3))
}

fn print_tally<R: Runtime + Print + Eprint>(
    rt: R,
    arguments: Arguments,
    tally: &Tally,
) -> io::Result<ExitCode> {
    let (threads, calls) = (arguments.threads, arguments.calls);
    eprintln!(rt; "{tally} of {threads} threads and {calls} calls")?;
    if tally.has_too_many_given_up() {
        println!(rt; "too many searches were given up")?;
        return Ok(ExitCode::from(1));
    }
    println!(rt; "no recording is wrong")?;
    Ok(ExitCode::SUCCESS)
}

fn print_wrong<R: Runtime + Print + Eprint>(
    rt: R,
    number: u64,
    verdict: Verdict,
    run: &Run,
) -> io::Result<ExitCode> {
    let Ok(text) = write_recording(rt.alloc(), run.capacity, run.events.as_slice()) else {
        return no_memory(rt);
    };
    println!(rt; "recording {number}: {verdict}")?;
    if let Ok(text) = str::from_utf8(text.as_slice()) {
        print!(rt; "{text}")?;
    }
    Ok(ExitCode::from(1))
}
