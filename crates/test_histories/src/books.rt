//! Scripts of books of two seats, whose last step is refused memory: as a whole, or by the channel.
ghost use Rattle.std.specs.Prelude.{◌≡◌};

use crate::fixtures::{Heap, holds, unwrap};
use flume_audit::book::Book;
use flume_audit::closed::Closed;
use flume_audit::seat::Seat;
use flume_audit::weigh::Ones;
use flume_model::step::{Reply, Step};
use flume_script::reading::{opening_of, step_of};
use flume_script::writing::write_reply;
use std::alloc::Global;
use std::marker::Brand;
use std::process::Abort;
use std::sync::ledger::{Blank, Ledger};
use test_support::counting::Counting;

// Behind a bar is the answer if the channel refuses the step.
const SCRIPTS: &str = "
= one seat receives what the other sends
unbounded
try_send 1 -> sent
try_recv -> got 1
len -> 0
sender_count -> 1
capacity -> none
= a message finds room
unbounded
try_send 5 -> sent | nomemory 5
= a send blocks
bounded 0
send 5 -> pending 1 | nomemory 5
= a receive parks
bounded 0
recv block -> parked 1 | nomemory
= a drain lets a blocked message in
bounded 3
try_send 1 -> sent
try_send 2 -> sent
try_send 3 -> sent
send 4 -> pending 1
drain -> drained 1 2 3 | nomemory
= a message is received
unbounded
try_send 1 -> sent
try_recv -> got 1
= a raised capacity lets a blocked message in
bounded 0
send 5 -> pending 1
set_capacity 1 -> done
";

const MOST_GROWTHS: u64 = 1000;

// A title, an opening and lines of steps. A call that names its ledger can't be handed a `&str`.
#[derive(Drop)]
struct BookScript<'s>(&'s str);

type RefusedGrowths = (u64, u64);

const NONE: RefusedGrowths = (1, 0);

// Whether a step was refused as a whole, and whether a growth of it was refused.
type Refusal = (bool, bool);

type TestBook<'h, L> = Book<u64, L, Ones, Heap<'h>>;

type Seats<'h, L> = Vec<Seat<u64, L, Ones, Heap<'h>>, Heap<'h>>;

fn reply_is<'h>(
    rt: &impl Abort,
    heap: Heap<'h>,
    reply: &Reply<u64, Heap<'h>>,
    wanted: &str,
) -> bool {
    let mut text = String::new(heap);
    unwrap(rt, write_reply(&mut text, reply));
    text.as_str().trim_end() == wanted
}

// Makes the step of a line by the next seat. A refused one leaves the channel's room as it was.
fn make_step<'h, L: Ledger>(
    rt: &impl Abort,
    (title, heap): (&str, Heap<'h>),
    (book, seats): (&mut TestBook<'h, L>, &mut Seats<'h, L>),
    (line, growths): (&str, RefusedGrowths),
) -> Refusal {
    let (step, answers) = line.split_once(" -> ").expect(rt, "there is an arrow");
    let (answer, refusal) = answers.split_once(" | ").unwrap_or((answers, "none"));
    let step = step_of(step.as_bytes()).expect(rt, "there is a step");
    let room = book.channel().room();
    seats.reverse();
    let seat = seats.last_mut().expect(rt, "there are seats");
    heap.refuse_between(growths.0, growths.1);
    let outcome = book.step(seat, step);
    heap.refuse(false);
    let is_refused = heap.refusals() > 0;
    let wanted = if is_refused { refusal } else { answer };
    let (is_whole, is_right) = match outcome {
        Ok(reply) => (false, reply_is(rt, heap, &reply, wanted)),
        Err(_) => (true, is_refused),
    };
    holds(rt, (title, "another answer"), is_right);
    let is_same = !is_refused || book.channel().room() == room;
    holds(rt, (title, "another room"), is_same);
    (is_whole, is_refused)
}

// Plays a script on a new book, its last step with these growths refused. The book settles.
fn play<L: Ledger, R: Abort>(
    rt: &R,
    heap: Heap<'_>,
    blank: Blank,
    script: &BookScript<'_>,
    growths: RefusedGrowths,
) -> Refusal
    requires name { blank.name ≡ L.name }
    requires parts { blank.parts ≡ L.parts }
    requires one_each { blank.parts ≡ 2 }
{
    let (title, lines) = script.0.split_once("\n").expect(rt, "there is a title");
    let (opening, lines) = lines.split_once("\n").expect(rt, "there are steps");
    let capacity = opening_of(opening.as_bytes()).expect(rt, "there is an opening");
    let opened = Book::<u64, L, Ones, Heap<'_>>::new(heap, blank, capacity, 2);
    let (mut book, mut seats) = unwrap(rt, opened);
    let (before, last) = lines.rsplit_once("\n").unwrap_or(("", lines));
    let here = (title, heap);
    for line in before.lines() {
        make_step(rt, here, (&mut book, &mut seats), (line, NONE));
    }
    let refused = make_step(rt, here, (&mut book, &mut seats), (last, growths));
    if refused.1 {
        make_step(rt, here, (&mut book, &mut seats), (last, NONE));
    }
    let is_settled = matches!(book.close(seats), Closed::Settled);
    holds(rt, (title, "the book doesn't settle"), is_settled);
    refused
}

// Some growths are refused as a whole, and some by the channel if the script says so.
fn each_growth<R: Abort>(rt: &R, alloc: Global, block: &str, is_one: bool) {
    let (heap, script) = (Counting::new(alloc), BookScript(block));
    let (mut whole, mut by_channel) = (0u64, false);
    for first in 1..MOST_GROWTHS {
        let growths = (first, if is_one { first } else { u64::MAX });
        match play::<Brand, _>(rt, &heap, Blank::new(2), &script, growths) {
            (_, false) => break,
            (true, _) => whole = whole.wrapping_add(1),
            (false, _) => by_channel = true,
        }
    }
    let is_some = whole > 0 && whole < MOST_GROWTHS - 1;
    holds(rt, (block, "refused as a whole never, or always"), is_some);
    let is_told = by_channel == block.contains(" | ");
    holds(rt, (block, "refused by the channel, or not"), is_told);
    holds(rt, (block, "blocks are left"), heap.live() == 0);
}

#[test]
fn each_audited_step_is_refused_as_a_whole_or_written(rt: HostRuntime) {
    for block in SCRIPTS.trim_end().split("\n= ").skip(1) {
        each_growth(&rt, rt.alloc(), block, false);
        each_growth(&rt, rt.alloc(), block, true);
    }
}
