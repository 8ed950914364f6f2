//! Each growth of a list of steps, and of a script, refused in turn: as a whole, or at one step.
use crate::fixtures::{Heap, holds, is, unwrap};
use flume_core::chan::Chan;
use flume_core::run::run;
use flume_model::step::Step;
use flume_script::reading::{Reading, read_script};
use flume_script::run_script;
use flume_script::writing::write_replies;
use std::alloc::Global;
use std::process::Abort;
use std::str;
use test_support::counting::Counting;

const MOST_GROWTHS: u64 = 1000;

// A script of which one step needs memory; its answers, and those if that step is refused.
#[derive(Clone, Copy)]
struct Row(&'static str, &'static str, &'static str);

const ROWS: &[Row] = &[
    Row(
        "unbounded\nlen\ntry_send 5\nlen",
        "0\nsent\n1\n",
        "0\nnomemory 5\n0\n",
    ),
    Row(
        "bounded 0\nsend 5\nlen\npoll_send 1",
        "pending 1\n0\nwaiting\n",
        "nomemory 5\n0\nnoticket\n",
    ),
    Row(
        "bounded 1\nrecv block\npoll 1",
        "parked 1\nwaiting\n",
        "nomemory\nnoticket\n",
    ),
];

fn read<'h>(
    rt: &impl Abort,
    heap: Heap<'h>,
    script: &str,
) -> (Option<usize>, Vec<Step<u64>, Heap<'h>>) {
    match unwrap(rt, read_script(heap, script.as_bytes())) {
        Reading::Right { capacity, steps } => (capacity, steps),
        Reading::Wrong { .. } => (None, Vec::new(heap)),
    }
}

// What a list answers with this growth refused, and whether it was as a whole: then all steps come
// back, and are made again with memory.
fn list_with_refusal<'h>(
    rt: &impl Abort,
    heap: Heap<'h>,
    script: &str,
    growth: u64,
) -> (Vec<u8, Heap<'h>>, bool) {
    let (capacity, steps) = read(rt, heap, script);
    let count = steps.len();
    let mut chan: Chan<u64, (), Heap<'h>> = Chan::new(heap, capacity);
    heap.refuse_between(growth, growth);
    let answer = run(heap, &mut chan, steps);
    heap.refuse(false);
    let (replies, is_whole) = match answer {
        Ok(replies) => (replies, false),
        Err(back) => {
            holds(rt, (script, "not all steps came back"), back.len() == count);
            let again = run(heap, &mut chan, back).ok();
            (again.expect(rt, "there is memory"), true)
        }
    };
    (unwrap(rt, write_replies(heap, &replies)), is_whole)
}

// What a script prints with this growth refused, and whether it was as a whole.
fn script_with_refusal<'h>(heap: Heap<'h>, script: &str, growth: u64) -> (Vec<u8, Heap<'h>>, bool) {
    heap.refuse_between(growth, growth);
    let answer = run_script(heap, script.as_bytes());
    heap.refuse(false);
    match answer {
        Ok(output) => (output.text, false),
        Err(_) => (Vec::new(heap), true),
    }
}

// Whether a list, or a script, was refused as a whole, and whether a growth was refused at all.
fn check_growth(
    rt: &impl Abort,
    heap: Heap<'_>,
    (row, is_script): (Row, bool),
    growth: u64,
) -> (bool, bool) {
    let (text, is_whole) = if is_script {
        script_with_refusal(heap, row.0, growth)
    } else {
        list_with_refusal(rt, heap, row.0, growth)
    };
    let is_refused = heap.refusals() > 0;
    let wanted = match (is_refused, is_whole) {
        (true, false) => row.2,
        (true, true) if is_script => "",
        _ => row.1,
    };
    let text = str::from_utf8(&text).expect(rt, "it is a text");
    is(rt, row.0, text, wanted);
    (is_whole, is_refused)
}

// Refuses each growth in turn. Some refuse the whole, and some a step.
fn check_each_growth(rt: &impl Abort, alloc: Global, row: Row, is_script: bool) {
    let heap = Counting::new(alloc);
    let (mut whole, mut step) = (false, false);
    for growth in 1..MOST_GROWTHS {
        match check_growth(rt, &heap, (row, is_script), growth) {
            (_, false) => break,
            (true, _) => whole = true,
            (false, _) => step = true,
        }
    }
    holds(rt, (row.0, "not each was refused"), whole && step);
    holds(rt, (row.0, "blocks are left"), heap.live() == 0);
}

#[test]
fn a_list_that_is_refused_comes_back_or_says_which_step_was(rt: HostRuntime) {
    for row in ROWS {
        check_each_growth(&rt, rt.alloc(), *row, false);
    }
}

#[test]
fn a_script_that_is_refused_says_so_or_prints_which_step_was(rt: HostRuntime) {
    for row in ROWS {
        check_each_growth(&rt, rt.alloc(), *row, true);
    }
}
