//! What can't be had fails the test here: a `?` in a test costs the prover a second.
use flume_model::step::{Reply, Step};
use flume_script::reading::{opening_of, step_of};
use std::alloc::{Allocator, Global};
use std::fmt::Debug;
use std::process::Abort;
use test_support::counting::Counting;

pub(crate) type Heap<'h> = &'h Counting<Global>;

pub(crate) type Pair<A = Global> = (Step<u64>, Reply<u64, A>);

#[derive(Drop)]
pub(crate) struct History<A: Allocator> {
    pub(crate) capacity: Option<usize>,
    pub(crate) pairs: Vec<Pair<A>, A>,
}

fn reply_of<A: Allocator + Copy>(rt: &impl Abort, alloc: A, text: &str) -> Reply<u64, A> {
    let (word, rest) = text.split_once(" ").unwrap_or((text, ""));
    let mut numbers = Vec::new(alloc);
    for number in rest
        .strip_prefix("filled ")
        .unwrap_or(rest)
        .split_whitespace()
    {
        unwrap(rt, numbers.push(number.parse().expect(rt, "a number")));
    }
    let number = numbers.first().copied();
    match word {
        "sent" => Reply::Sent { filled: number },
        "accepted" => Reply::Accepted,
        "ended" => Reply::Ended,
        "noticket" => Reply::NoTicket,
        "empty" => Reply::Empty,
        "done" => Reply::Done,
        "0" => Reply::Number(0),
        "nomemory" => Reply::NoMemory(number),
        "drained" => Reply::Drained(numbers),
        "pending" => Reply::Pending(number.expect(rt, "a ticket")),
        "parked" => Reply::Parked(number.expect(rt, "a ticket")),
        _ => Reply::Got(number.expect(rt, "a message")),
    }
}

/// The history of a text: an opening, and lines of a step, an arrow and its reply.
pub(crate) fn history_of<A: Allocator + Copy>(rt: &impl Abort, alloc: A, text: &str) -> History<A> {
    let mut lines = text.split("\n");
    let opening = lines.next().unwrap_or("");
    let capacity = opening_of(opening.as_bytes()).expect(rt, "an opening");
    let mut pairs = Vec::new(alloc);
    for line in lines {
        let (step, reply) = line.split_once(" -> ").expect(rt, "an arrow");
        let step = step_of(step.as_bytes()).expect(rt, "a step");
        unwrap(rt, pairs.push((step, reply_of(rt, alloc, reply))));
    }
    History { capacity, pairs }
}

pub(crate) fn is<T: Debug + PartialEq + Drop>(rt: &impl Abort, title: &str, answer: T, wanted: T) {
    assert_eq!(rt; answer, wanted, "{title}");
}

pub(crate) fn holds(rt: &impl Abort, (title, fault): (&str, &str), truth: bool) {
    assert!(rt; truth, "{title}: {fault}");
}

pub(crate) fn unwrap<T, E: Debug + Drop>(rt: &impl Abort, answer: Result<T, E>) -> T {
    answer.expect(rt, "there is memory")
}
