//! Random histories of a channel, as they are and with one reply replaced, by both judges.
use crate::fixtures::{History, holds, is, unwrap};
use crate::random_replies::RandomReplies;
use crate::random_steps::RandomSteps;
use crate::slow_judge::judge;
use flume_core::chan::Chan;
use flume_history::check::{Checked, check_history};
use flume_model::step::Reply;
use flume_script::writing::write_reply;
use std::alloc::Global;
use std::process::Abort;

const HISTORIES: u64 = 2000;

const STEPS: u64 = 40;

// The first words of all replies to random steps.
const KINDS: &str = "sent full closed pending accepted waiting returned noticket got empty ended \
    parked gone drained done noend 0 1 true false none unbounded";

fn random_history(
    rt: &impl Abort,
    alloc: Global,
    random_steps: &mut RandomSteps,
) -> History<Global> {
    let capacity = random_steps.capacity();
    let mut chan: Chan<u64, ()> = Chan::new(alloc, capacity);
    let mut pairs = Vec::new(alloc);
    random_steps.last_ticket = 0;
    for _ in 0..STEPS {
        let step = random_steps.step();
        let reply = chan.step(step);
        if let Reply::Pending(ticket) | Reply::Parked(ticket) = reply {
            random_steps.last_ticket = ticket;
        }
        unwrap(rt, pairs.push((step, reply)));
    }
    History { capacity, pairs }
}

fn check(rt: &impl Abort, alloc: Global, history: &History<Global>) -> Checked {
    let checked = check_history(alloc, history.capacity, &history.pairs);
    let judged = judge(rt, alloc, history.capacity, &history.pairs);
    is(rt, "both judge alike", checked, judged);
    checked
}

#[test]
fn the_answers_of_a_channel_are_runs(rt: HostRuntime) {
    let mut random_steps = RandomSteps::from_seed(20_261_126);
    for _ in 0..HISTORIES {
        let history = random_history(&rt, rt.alloc(), &mut random_steps);
        let checked = check(&rt, rt.alloc(), &history);
        is(&rt, "its own answers", checked, Checked::Run);
    }
}

// A history breaks where a reply is replaced by another of its kind. Adds the reply to the text.
fn replace_one(
    rt: &impl Abort,
    alloc: Global,
    mut history: History<Global>,
    replies: &mut RandomReplies,
    text: &mut String,
) {
    let place = replies.below(STEPS) as usize;
    let (_, reply) = history.pairs.get_mut(place).expect(rt, "a step");
    unwrap(rt, write_reply(text, reply));
    *reply = replies.other_reply(rt, alloc, reply);
    let checked = check(rt, alloc, &history);
    is(rt, "a replaced reply", checked, Checked::Breaks(place));
}

fn has_line(text: &str, word: &str) -> bool {
    for line in text.split("\n") {
        if line.split(" ").next() == Some(word) {
            return true;
        }
    }
    false
}

#[test]
fn a_history_breaks_at_a_reply_that_is_replaced_by_another_of_its_kind(rt: HostRuntime) {
    let mut random_steps = RandomSteps::from_seed(20_261_126);
    let mut replies = RandomReplies { state: 20_261_127 };
    let mut text = String::new(rt.alloc());
    for _ in 0..HISTORIES {
        let history = random_history(&rt, rt.alloc(), &mut random_steps);
        replace_one(&rt, rt.alloc(), history, &mut replies, &mut text);
    }
    let is_each = KINDS.split_whitespace().all(|word| has_line(&text, word));
    holds(&rt, ("replies", "a kind wasn't replaced"), is_each);
}

#[test]
fn no_memory_in_place_of_a_reply_is_judged_alike(rt: HostRuntime) {
    let mut random_steps = RandomSteps::from_seed(20_261_126);
    let mut replies = RandomReplies { state: 20_261_128 };
    let (mut runs, mut there, mut later) = (0u64, 0u64, 0u64);
    for _ in 0..HISTORIES {
        let mut history = random_history(&rt, rt.alloc(), &mut random_steps);
        let place = replies.below(STEPS) as usize;
        let (step, reply) = history.pairs.get_mut(place).expect(&rt, "a step");
        *reply = replies.no_memory(step);
        let count = match check(&rt, rt.alloc(), &history) {
            Checked::Run => &mut runs,
            Checked::Breaks(broken) if broken > place => &mut later,
            checked => {
                is(&rt, "another answer", checked, Checked::Breaks(place));
                &mut there
            }
        };
        *count = count.saturating_add(1);
    }
    let is_some = runs > 0 && later > 0 && there > 1000;
    holds(&rt, ("replies", "too few of one answer"), is_some);
}
