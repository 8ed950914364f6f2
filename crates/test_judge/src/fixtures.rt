//! Explanations as text. What can't be had fails the test here: a `?` costs the prover a second.
use flume::step::Reply;
use flume_script::reading::{opening_of, step_of};
use judge_calls::answer_texts::answer_of;
use judge_calls::call_texts::call_of;
use judge_calls::event::{Event, Item};
use judge_calls::explanation::{Explained, check_explanation};
use std::alloc::Global;
use std::fmt::Debug;
use std::process::Abort;

fn parts_of(text: &str) -> (&str, Option<u64>) {
    let (word, rest) = text.split_once(" ").unwrap_or((text, ""));
    (word, rest.parse().ok())
}

fn numbers_of(rt: &impl Abort, alloc: Global, text: &str) -> Vec<u64> {
    let mut numbers = Vec::new(alloc);
    for number in text.split_whitespace().skip(1) {
        unwrap(rt, numbers.push(number.parse().expect(rt, "a number")));
    }
    numbers
}

fn reply_of(rt: &impl Abort, alloc: Global, text: &str) -> Reply<u64> {
    if let Some(ticket) = text.strip_prefix("sent filled ") {
        let filled = ticket.parse().ok();
        return Reply::Sent { filled };
    }
    let (closed, filled) = (false, None);
    match parts_of(text) {
        ("sent", _) => Reply::Sent { filled },
        ("full", Some(back)) => Reply::Full(back),
        ("closed", Some(back)) => Reply::Closed(back),
        ("nomemory", back) => Reply::NoMemory(back),
        ("pending", Some(ticket)) => Reply::Pending(ticket),
        ("accepted", None) => Reply::Accepted,
        ("waiting", None) => Reply::Waiting,
        ("returned", Some(message)) => Reply::Returned { message, closed },
        ("got", Some(message)) => Reply::Got(message),
        ("empty", None) => Reply::Empty,
        ("ended", None) => Reply::Ended,
        ("parked", Some(ticket)) => Reply::Parked(ticket),
        ("gone", None) => Reply::Gone { closed, filled },
        ("drained", _) => Reply::Drained(numbers_of(rt, alloc, text)),
        ("done", None) => Reply::Done,
        _ => Reply::Number(text.parse().expect(rt, "a reply")),
    }
}

fn thread_of(name: &str) -> usize {
    name.as_bytes().first().copied().unwrap_or(0) as usize
}

// `a: CALL` as a call begins, `a -> ANSWER` as it returns, `a | STEP -> REPLY` for a step of it.
fn item_of(rt: &impl Abort, alloc: Global, line: &str) -> Item<u64> {
    if let Some((name, call)) = line.split_once(": ") {
        let call = call_of(call.as_bytes()).expect(rt, "a call");
        let thread = thread_of(name);
        return Item::Happens(Event::Begins { thread, call });
    }
    let (front, answer) = line.split_once(" -> ").expect(rt, "an arrow");
    match front.split_once(" | ") {
        None => {
            let answer = unwrap(rt, answer_of(alloc, answer.as_bytes(), false));
            let (thread, answer) = (thread_of(front), answer.expect(rt, "an answer"));
            Item::Happens(Event::Returns { thread, answer })
        }
        Some((name, step)) => {
            let step = step_of(step.as_bytes()).expect(rt, "a step");
            let (thread, reply) = (thread_of(name), reply_of(rt, alloc, answer));
            Item::Makes {
                thread,
                step,
                reply,
            }
        }
    }
}

// A title, an opening and items, of which the check finds the one behind `! ` wrong.
fn check_text(rt: &impl Abort, alloc: Global, text: &str) {
    let mut lines = text.split("\n");
    let title = lines.next().unwrap_or("");
    let opening = lines.next().unwrap_or("");
    let capacity = opening_of(opening.as_bytes()).expect(rt, "an opening");
    let (mut items, mut wanted) = (Vec::new(alloc), Explained::Explains);
    for line in lines {
        if line.starts_with("! ") {
            wanted = Explained::Breaks(items.len());
        }
        let line = line.strip_prefix("! ").unwrap_or(line);
        unwrap(rt, items.push(item_of(rt, alloc, line)));
    }
    let answer = check_explanation(alloc, capacity, items.as_slice());
    assert_eq!(rt; answer, wanted, "{title}");
}

/// Checks each text; `= ` begins one.
pub(crate) fn check_each(rt: &impl Abort, alloc: Global, texts: &str) {
    for text in texts.trim_end().split("\n= ").skip(1) {
        check_text(rt, alloc, text);
    }
}

/// The result of a call that fails for memory or threads alone.
pub(crate) fn unwrap<T, E: Debug + Drop>(rt: &impl Abort, answer: Result<T, E>) -> T {
    answer.expect(rt, "the system gives what is asked for")
}
