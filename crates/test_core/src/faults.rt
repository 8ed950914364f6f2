//! The judge finds a wrong reply, and nothing wrong in the channel's own replies.
use crate::fixtures::{holds, unwrap};
use crate::judge::Judge;
use flume_core::chan::Chan;
use flume_model::step::Reply;
use flume_script::reading::{opening_of, step_of};
use std::alloc::Global;
use std::process::Abort;

// A wrong reply is behind each bar: a message that filled a receiver is lost, is got twice, fills
// twice; one is received again; two of a drained list change places; a send is accepted twice; a
// receiver's ticket serves as a send's.
const FAULTS: &str = "
= unbounded
recv block
try_send 5
poll 1 | ended
= unbounded
recv block
try_send 5
poll 1
poll 1 | got 5
= unbounded
recv block
try_send 5
try_send 6 | filled 1
poll 1
try_recv
= unbounded
try_send 5
try_recv
try_recv | got 5
= unbounded
try_send 1
try_send 2
drain | drained 2 1
= bounded 0
send 5
try_recv
poll_send 1
poll_send 1 | accepted
= unbounded
recv plain
poll_send 1 | accepted
";

fn wrong_reply(rt: &impl Abort, alloc: Global, fault: &str) -> Reply<u64> {
    match fault {
        "ended" => Reply::Ended,
        "accepted" => Reply::Accepted,
        "filled 1" => Reply::Sent { filled: Some(1) },
        "got 5" => Reply::Got(5),
        _ => Reply::Drained(unwrap(rt, vec![in alloc; 2, 1])),
    }
}

fn is_right(rt: &impl Abort, alloc: Global, text: &str, has_fault: bool) -> bool {
    let mut lines = text.split("\n");
    let opening = opening_of(lines.next().unwrap_or("").as_bytes()).expect(rt, "an opening");
    let mut chan: Chan<u64, ()> = Chan::new(alloc, opening);
    let mut judge = Judge::new(alloc);
    for line in lines {
        let (step, fault) = line.split_once(" | ").unwrap_or((line, ""));
        let step = step_of(step.as_bytes()).expect(rt, "a step");
        let mut reply = chan.step(step);
        if has_fault && fault != "" {
            reply = wrong_reply(rt, alloc, fault);
        }
        unwrap(rt, judge.add(&step, &reply));
    }
    unwrap(rt, judge.is_right(alloc))
}

#[test]
fn the_judge_finds_each_fault(rt: HostRuntime) {
    for block in FAULTS.trim_end().split("\n= ").skip(1) {
        for has_fault in [false, true] {
            let judge = is_right(&rt, rt.alloc(), block, has_fault);
            holds(&rt, (block, "judged otherwise"), judge != has_fault);
        }
    }
}
