//! Compares `run_script` with a second, plain reader: on scripts written by hand, and random ones.
use crate::fixtures::{holds, unwrap};
use crate::random_scripts::RandomScripts;
use crate::script_reader::read;
use crate::script_rows::ROWS;
use flume_script::run_script;
use std::alloc::Global;
use std::process::Abort;

const SCRIPTS: u64 = 2_000;

fn lines_in(text: &[u8]) -> u64 {
    let mut lines = 0u64;
    for &byte in text {
        if byte == 10 {
            lines = lines.saturating_add(1);
        }
    }
    lines
}

// `read` is what the reader says.
fn is_answered(rt: &impl Abort, alloc: Global, script: &[u8], read: Result<u64, u64>) -> bool {
    let answer = unwrap(rt, run_script(alloc, script));
    match read {
        Ok(lines) => {
            let replies = lines_in(&answer.text).saturating_add(1);
            answer.status == 0 && replies == lines
        }
        Err(line) => {
            let wrong = unwrap(rt, format!(in alloc; "line {line}: not a step\n"));
            answer.status == 2 && answer.text.as_slice() == wrong.as_bytes()
        }
    }
}

#[test]
fn scripts_by_hand_are_answered_as_the_reader_says(rt: HostRuntime) {
    for &(script, wrong) in ROWS {
        let read = read(script);
        let is_right = read.err().unwrap_or(0) == wrong
            && is_answered(&rt, rt.alloc(), script, read);
        assert!(rt; is_right, "{script:?}");
    }
}

#[test]
fn random_scripts_are_answered_as_the_reader_says(rt: HostRuntime) {
    let mut random_scripts = RandomScripts { state: 1 };
    let mut wrong = 0u64;
    for _ in 0..SCRIPTS {
        let script = unwrap(&rt, random_scripts.script(rt.alloc()));
        let read = read(&script);
        if read.is_err() {
            wrong = wrong.saturating_add(1);
        }
        let is_right = is_answered(&rt, rt.alloc(), &script, read);
        assert!(rt; is_right, "{script:?}");
    }
    let are_mixed = wrong >= SCRIPTS / 4 && wrong <= SCRIPTS / 4 * 3;
    holds(
        &rt,
        ("random scripts", "too few are wrong, or right"),
        are_mixed,
    );
}
