//! Reads a recording of calls, or a history of steps, from standard input, and says whether a
//! correct channel could have produced it.
#![tactic(auto)]

use flume_script::serving::serve_on_host;
use judge_verdicts::Judge;
use std::io::ErrorKind;
use std::process::ExitCode;
use std::{env, io};

// The limit of the search for an explanation, if no other is asked for.
const LIMIT: usize = 10_000_000;

fn main(rt: HostRuntime) -> ExitCode {
    serve_on_host(&rt, judge_for(&rt))
}

// The arguments are `--steps`, and `--limit` with a number behind it.
fn judge_for(rt: &HostRuntime) -> io::Result<Judge> {
    let mut judge = Judge {
        with_steps: false,
        limit: LIMIT,
    };
    let mut is_limit = false;
    for argument in env::args(rt)?.skip(1) {
        let word = argument.as_str();
        if is_limit {
            judge.limit = word.parse().map_err(|_| wrong_argument())?;
        }
        is_limit = word == "--limit";
        judge.with_steps = judge.with_steps || word == "--steps";
    }
    if is_limit {
        return Err(wrong_argument());
    }
    Ok(judge)
}

fn wrong_argument() -> io::Error {
    io::Error::from(ErrorKind::InvalidInput)
}
