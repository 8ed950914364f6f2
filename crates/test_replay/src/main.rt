//! Replays scripts whose replies were recorded from flume 0.12.0, and checks these replies and
//! histories that were written by hand. It prints how many are right.
#![tactic(auto)]

use flume_core::error::NoMemory;
use flume_history::script::check_script;
use flume_script::run_script;
use std::alloc::Global;
use std::{fs, io};

fn main(rt: HostRuntime) -> io::Result<()> {
    replay(&rt, "scripts")?;
    judge(&rt, "histories")
}

// A paragraph is a line `= number`, the script, a line `-`, and the replies; before the first are
// comments. A paragraph is read without the end of its last line.
fn replay(rt: &HostRuntime, name: &str) -> io::Result<()> {
    let path = format!(in rt.alloc(); "{name}.txt")?;
    let text = fs::read_to_string(rt, path.as_str())?;
    let (mut all, mut agree, mut runs) = (0u64, 0u64, 0u64);
    let mut first = None;
    let paragraphs = text.as_str().strip_suffix("\n").unwrap_or_default();
    for paragraph in paragraphs.split("\n= ").skip(1) {
        all = all.saturating_add(1);
        if agrees(rt.alloc(), paragraph)? {
            agree = agree.saturating_add(1);
        } else {
            first = first.or(paragraph.lines().next());
        }
        if is_run(rt.alloc(), paragraph)? {
            runs = runs.saturating_add(1);
        }
    }
    match first {
        None => println!(rt; "{name}: {agree} of {all} agree, and {runs} are runs"),
        Some(number) => println!(rt; "{name}: {agree} of {all} agree, {number} is the first other"),
    }
}

// As `replay`, of histories, with what `check_script` prints of each.
fn judge(rt: &HostRuntime, name: &str) -> io::Result<()> {
    let path = format!(in rt.alloc(); "{name}.txt")?;
    let text = fs::read_to_string(rt, path.as_str())?;
    let (mut all, mut right) = (0u64, 0u64);
    let mut first = None;
    let paragraphs = text.as_str().strip_suffix("\n").unwrap_or_default();
    for paragraph in paragraphs.split("\n= ").skip(1) {
        all = all.saturating_add(1);
        if is_judged(rt.alloc(), paragraph)? {
            right = right.saturating_add(1);
        } else {
            first = first.or(paragraph.lines().next());
        }
    }
    match first {
        None => println!(rt; "{name}: {right} of {all} are judged as they should"),
        Some(title) => println!(rt; "{name}: {right} of {all}, '{title}' is the first other"),
    }
}

fn is_judged(alloc: Global, paragraph: &str) -> io::Result<bool> {
    let Some((history, wanted)) = parts_of(paragraph) else {
        return Ok(false);
    };
    let checked = check_script(alloc, history.as_bytes())?;
    let printed = checked.text.strip_suffix(b"\n");
    Ok(printed == Some(wanted.as_bytes()))
}

fn parts_of(paragraph: &str) -> Option<(&str, &str)> {
    let (_number, script_and_replies) = paragraph.split_once("\n")?;
    script_and_replies.split_once("\n-\n")
}

fn agrees(alloc: Global, paragraph: &str) -> io::Result<bool> {
    let Some((script, replies)) = parts_of(paragraph) else {
        return Ok(false);
    };
    match run_script(alloc, script.as_bytes()) {
        Ok(run) => {
            let printed = run.text.strip_suffix(b"\n");
            Ok(run.status == 0 && printed == Some(replies.as_bytes()))
        }
        Err(NoMemory) => Err(io::Error::from(io::ErrorKind::OutOfMemory)),
    }
}

fn is_run(alloc: Global, paragraph: &str) -> io::Result<bool> {
    let Some((script, replies)) = parts_of(paragraph) else {
        return Ok(false);
    };
    let mut replies = replies.lines();
    let mut history = String::new(alloc);
    for line in script.lines() {
        if history.as_str().is_empty() {
            write!(history, "{line}\n")?;
        } else {
            let reply = replies.next().unwrap_or_default();
            write!(history, "{line} -> {reply}\n")?;
        }
    }
    match check_script(alloc, history.as_str().as_bytes()) {
        Ok(checked) => Ok(checked.status == 0 && replies.next().is_none()),
        Err(NoMemory) => Err(io::Error::from(io::ErrorKind::OutOfMemory)),
    }
}
