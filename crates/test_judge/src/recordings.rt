//! Every call and every answer is read and written back, and wrong lines are refused.
use judge_calls::call::Answer;
use judge_calls::event::Event;
use judge_calls::fault::Fault;
use judge_calls::recording::{Recording, read_recording};
use judge_calls::writing::write_event;
use std::alloc::Global;
use std::process::Abort;

// Every call, with the answers that it may have, and each answer at least once.
const ALL: &str = "unbounded
a: send 1
a -> sent
b: send_timeout 18446744073709551615
b -> timeout
c-1: send_async 0
c-1 -> dropped
a: try_send 10
a -> full
b: recv
b -> got 1
a: recv_timeout
c-1: recv_async
a -> disconnected
c-1 -> nomemory
a: try_recv
a -> empty
a: drain
b: drain
b -> drained 0 18446744073709551615 1
a -> drained
a: clone_sender
a -> countfull
a: clone_receiver
a -> done
a: drop_sender
a -> noend
a: drop_receiver
a -> done
a: set_capacity 70
a -> unbounded
a: len
b: capacity
b -> 5
a -> 5
a: capacity
a -> none
a: is_empty
a -> true
a: is_full
a -> false
a: sender_count
a -> 0
a: receiver_count
a -> 1
a: is_disconnected
a -> false
";

fn recording_of<'s>(rt: &impl Abort, alloc: Global, text: &'s str) -> Recording<'s, Global> {
    match read_recording(alloc, text.as_bytes()) {
        Ok(recording) => recording,
        Err(_) => rt.abort(),
    }
}

fn event_is_written_as(
    rt: &impl Abort,
    alloc: Global,
    names: &[&[u8]],
    event: &Event<u64>,
    line: &str,
) {
    match write_event(alloc, names, event) {
        Ok(text) => assert_eq!(rt; text.as_slice(), line.as_bytes(), "{line}"),
        Err(_) => rt.abort(),
    }
}

fn is_read_and_written(rt: &impl Abort, alloc: Global, text: &str) {
    let Recording::Right { events, names, .. } = recording_of(rt, alloc, text) else {
        rt.abort();
    };
    let mut lines = text.trim_end().split("\n").skip(1);
    for event in &events {
        let line = lines.next().expect(rt, "a line for each event");
        event_is_written_as(rt, alloc, &names, event, line);
    }
    assert!(rt; lines.next().is_none(), "an event for each line");
}

fn is_wrong(rt: &impl Abort, alloc: Global, text: &str, number: usize, reason: Fault) {
    let Recording::Wrong { line, fault } = recording_of(rt, alloc, text) else {
        rt.abort();
    };
    assert_eq!(rt; (line, fault), (number, reason), "{text}");
}

fn numbers_in(events: &[Event<u64>]) -> (usize, usize) {
    let (mut numbers, mut capacities) = (0usize, 0usize);
    for event in events {
        if let Event::Returns { answer, .. } = event {
            match answer {
                Answer::Number(_) => numbers = numbers.saturating_add(1),
                Answer::Capacity(Some(_)) => capacities = capacities.saturating_add(1),
                _ => {}
            }
        }
    }
    (numbers, capacities)
}

// Each of the parts, which `|` separates, makes this line of a text wrong.
fn each_is_wrong(
    (rt, alloc): (&impl Abort, Global),
    (before, after): (&str, &str),
    parts: &str,
    (line, fault): (usize, Fault),
) {
    for part in parts.split("|") {
        let mut text = String::new(alloc);
        if write!(text, "{before}{part}{after}").is_err() {
            rt.abort();
        }
        is_wrong(rt, alloc, &text, line, fault);
    }
}

#[test]
fn all_calls_and_answers_are_read_and_written(rt: HostRuntime) {
    is_read_and_written(&rt, rt.alloc(), ALL);
}

#[test]
fn a_recording_may_have_no_events(rt: HostRuntime) {
    is_read_and_written(&rt, rt.alloc(), "bounded 3");
    is_read_and_written(&rt, rt.alloc(), "bounded 3\n");
}

fn thread_of(event: &Event<u64>) -> usize {
    match event {
        Event::Begins { thread, .. } => *thread,
        Event::Returns { thread, .. } => *thread,
    }
}

#[test]
fn threads_are_numbered_as_they_appear(rt: HostRuntime) {
    let text = "bounded 0\nb: recv\na: send 1\nb -> got 1\nc -> sent\r\na -> sent";
    let recording = recording_of(&rt, rt.alloc(), text);
    let Recording::Right {
        capacity,
        events,
        names,
    } = recording
    else {
        rt.abort();
    };
    assert_eq!(&rt; capacity, Some(0));
    let wanted = [b"b".as_slice(), b"a".as_slice(), b"c".as_slice()];
    assert_eq!(&rt; names.as_slice(), wanted.as_slice());
    let threads = [0usize, 1, 0, 2, 1];
    assert_eq!(&rt; events.len(), threads.len());
    for (event, wanted) in events.iter().zip(&threads) {
        assert_eq!(&rt; thread_of(event), *wanted);
    }
}

#[test]
fn numbers_are_read_by_their_calls(rt: HostRuntime) {
    let text =
        "bounded 5\na: len\nb: capacity\nb -> 5\na -> 5\na: capacity\na -> 5\nb -> 5\nc -> 1";
    let recording = recording_of(&rt, rt.alloc(), text);
    let Recording::Right { events, .. } = recording else {
        rt.abort();
    };
    assert_eq!(&rt; numbers_in(&events), (2, 3));
}

#[test]
fn the_first_line_is_an_opening(rt: HostRuntime) {
    for text in ["", "\n", "bounded", "bounded x\na: recv", "a: recv\n"] {
        is_wrong(&rt, rt.alloc(), text, 1, Fault::NoOpening);
    }
}

const NO_EVENTS: &str = "a|a:recv|: recv| -> sent|a b: recv|a:b: recv|a - sent";

const NO_CALLS: &str = "send|send |send x|send 07|send +7|send -1|send 1 | recv|recv |\
    send 18446744073709551616|recv 1|Recv|poll 1|send 1 2|set_capacity|";

const NO_ANSWERS: &str = "got|got |got x|got 01|got 18446744073709551616|gots|drained1|drained |\
    drained 1 |drained  1|drained 1 x|drained 01|drain|007|-1|18446744073709551616|full 1|none 1|\
    Sent|sent || sent|dropped 1";

#[test]
fn wrong_lines_are_refused_with_their_reason(rt: HostRuntime) {
    let host = (&rt, rt.alloc());
    let before = "unbounded\na: recv\na -> got 1\n";
    each_is_wrong(host, (before, ""), NO_EVENTS, (4, Fault::NoEvent));
    each_is_wrong(host, (before, "\n"), NO_EVENTS, (4, Fault::NoEvent));
    is_read_and_written(&rt, rt.alloc(), before);
    each_is_wrong(host, (before, "\n"), "", (4, Fault::NoEvent));
    each_is_wrong(
        host,
        ("bounded 1\na: ", "\nb"),
        NO_CALLS,
        (2, Fault::NoCall),
    );
    let before = "bounded 1\na: recv\na -> ";
    each_is_wrong(host, (before, "\nb"), NO_ANSWERS, (3, Fault::NoAnswer));
}
