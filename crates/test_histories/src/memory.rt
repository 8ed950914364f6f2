//! The check itself runs out of memory, and then says nothing of the history.
use crate::fixtures::{history_of, holds, is};
use flume_history::check::{Checked, check_history};
use std::alloc::Global;
use std::process::Abort;
use test_support::counting::Counting;

const MOST: u64 = 1000;

// The check stores messages, tickets and a drained list.
const STORES: &str = "bounded 2
recv plain -> parked 1
try_send 1 -> sent
try_send 2 -> sent
send 3 -> pending 2
drain -> drained 1 2
try_recv -> got 3";

const STORES_NOTHING: &str = "bounded 2
try_recv -> empty
try_send 5 -> nomemory 5
drain -> drained
len -> 0";

// They are wrong at once, and right only if something is stored.
const WRONG_AT_ONCE: &str = "bounded 2
try_recv -> got 5
try_send 5 -> sent";

// How many growths were refused. If any was, the check says that there was no memory.
fn check_with_refusals(
    rt: &impl Abort,
    alloc: Global,
    (text, wanted): (&str, Checked),
    (first, last): (u64, u64),
) -> u64 {
    let heap = Counting::new(alloc);
    let history = history_of(rt, &heap, text);
    let live = heap.live();
    heap.refuse_between(first, last);
    let answer = check_history(&heap, history.capacity, &history.pairs);
    let refusals = heap.refusals();
    heap.refuse(false);
    holds(rt, ("a check", "blocks are left"), heap.live() == live);
    let wanted = if refusals > 0 {
        Checked::NoMemory
    } else {
        wanted
    };
    is(rt, text, answer, wanted);
    refusals
}

#[test]
fn a_check_that_was_refused_memory_says_nothing_of_the_history(rt: HostRuntime) {
    let mut growths = 0u64;
    for first in 1..MOST {
        if check_with_refusals(&rt, rt.alloc(), (STORES, Checked::Run), (first, first)) == 0 {
            break;
        }
        growths = growths.saturating_add(1);
    }
    holds(
        &rt,
        ("a check", "refused never, or always"),
        growths > 0 && growths < MOST - 1,
    );
}

#[test]
fn a_check_that_stores_nothing_takes_no_memory(rt: HostRuntime) {
    for row in [
        (STORES_NOTHING, Checked::Run),
        (WRONG_AT_ONCE, Checked::Breaks(0)),
    ] {
        let refusals = check_with_refusals(&rt, rt.alloc(), row, (1, u64::MAX));
        holds(&rt, ("a check", "memory was taken"), refusals == 0);
    }
}
