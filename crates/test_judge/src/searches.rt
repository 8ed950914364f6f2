//! Recordings, each with what a search for an explanation answers.
use judge_calls::call::{Answer, Call};
use judge_calls::event::Event;
use judge_search::explain::{Checked, check_calls};
use std::alloc::{AllocError, AllocGlobal, Global};
use std::process::Abort;

fn begins(thread: usize, call: Call<u64>) -> Event<u64> {
    Event::Begins { thread, call }
}

fn returns(thread: usize, answer: Answer<u64>) -> Event<u64> {
    Event::Returns { thread, answer }
}

// What a search over this many configurations answers.
fn is(
    rt: &(impl Abort + AllocGlobal),
    (capacity, limit): (Option<usize>, usize),
    events: &[Event<u64>],
    wanted: Checked,
) {
    assert_eq!(rt; check_calls(rt.alloc(), capacity, events, limit), wanted);
}

#[test]
fn one_message_is_sent_and_received(rt: HostRuntime) {
    let events = [
        begins(0, Call::Send(5)),
        returns(0, Answer::Sent),
        begins(1, Call::Recv),
        returns(1, Answer::Got(5)),
    ];
    is(&rt, (None, 100), &events, Checked::Explained);
}

#[test]
fn another_message_is_received(rt: HostRuntime) {
    let events = [
        begins(0, Call::Send(5)),
        returns(0, Answer::Sent),
        begins(1, Call::Recv),
        returns(1, Answer::Got(6)),
    ];
    is(&rt, (None, 100), &events, Checked::Breaks(3));
}

#[test]
fn an_answer_that_is_wrong_later_is_not_blamed_on_an_earlier_one(rt: HostRuntime) {
    let events = [
        begins(0, Call::TrySend(5)),
        begins(1, Call::TryRecv),
        returns(1, Answer::Got(5)),
        returns(0, Answer::Full),
    ];
    is(&rt, (None, 100), &events, Checked::Breaks(3));
}

#[test]
fn a_send_and_a_receive_that_overlap_meet_at_capacity_0(rt: HostRuntime) {
    let events = [
        begins(0, Call::Send(5)),
        begins(1, Call::Recv),
        returns(0, Answer::Sent),
        returns(1, Answer::Got(5)),
    ];
    is(&rt, (Some(0), 100), &events, Checked::Explained);
}

#[test]
fn a_send_alone_is_not_sent_at_capacity_0(rt: HostRuntime) {
    let events = [begins(0, Call::Send(5)), returns(0, Answer::Sent)];
    is(&rt, (Some(0), 1000), &events, Checked::Breaks(1));
}

#[test]
fn calls_time_out_and_futures_are_dropped_and_a_receive_is_refused_memory(rt: HostRuntime) {
    let events = [
        begins(0, Call::SendTimeout(5)),
        returns(0, Answer::Timeout),
        begins(1, Call::RecvTimeout),
        begins(2, Call::RecvAsync),
        returns(1, Answer::Timeout),
        begins(1, Call::TrySend(7)),
        returns(1, Answer::Sent),
        returns(2, Answer::Got(7)),
        begins(2, Call::RecvAsync),
        returns(2, Answer::Dropped),
        begins(3, Call::RecvTimeout),
        returns(3, Answer::NoMemory),
    ];
    is(&rt, (Some(0), 10000), &events, Checked::Explained);
}

#[test]
fn a_receive_that_is_dropped_takes_no_message(rt: HostRuntime) {
    for (answer, wanted) in [
        (Answer::Got(5), Checked::Explained),
        (Answer::Empty, Checked::Breaks(5)),
    ] {
        let events = [
            begins(0, Call::Send(5)),
            returns(0, Answer::Sent),
            begins(1, Call::RecvAsync),
            returns(1, Answer::Dropped),
            begins(2, Call::TryRecv),
            returns(2, answer),
        ];
        is(&rt, (None, 1000), &events, wanted);
    }
}

#[test]
fn a_channel_that_is_closed_has_no_message_left(rt: HostRuntime) {
    let events = [
        begins(0, Call::Recv),
        begins(3, Call::Send(1)),
        returns(3, Answer::Sent),
        begins(1, Call::CloneSender),
        returns(1, Answer::Done),
        begins(1, Call::DropSender),
        begins(2, Call::DropSender),
        returns(1, Answer::Done),
        returns(0, Answer::Got(1)),
        returns(2, Answer::Done),
        begins(0, Call::Recv),
        returns(0, Answer::Disconnected),
        begins(0, Call::IsDisconnected),
        returns(0, Answer::Flag(true)),
        begins(0, Call::SetCapacity(3)),
        returns(0, Answer::Disconnected),
        begins(0, Call::Len),
        returns(0, Answer::Number(1)),
    ];
    is(&rt, (Some(2), 10000), &events, Checked::Breaks(17));
}

#[test]
fn sends_and_receives_that_overlap_take_effect_in_any_order(rt: HostRuntime) {
    let events = [
        begins(0, Call::Send(1)),
        begins(1, Call::Send(2)),
        begins(2, Call::Send(3)),
        begins(3, Call::Recv),
        begins(4, Call::Recv),
        begins(5, Call::Recv),
        returns(3, Answer::Got(3)),
        returns(4, Answer::Got(1)),
        returns(5, Answer::Got(2)),
        returns(0, Answer::Sent),
        returns(1, Answer::Sent),
        returns(2, Answer::Sent),
    ];
    is(&rt, (Some(1), 100000), &events, Checked::Explained);
}

// The first configuration, before the return of the send, is free. Each step leads to one more.
#[test]
fn two_calls_that_make_a_step_each_take_two_configurations(rt: HostRuntime) {
    let events = [
        begins(0, Call::Send(5)),
        returns(0, Answer::Sent),
        begins(1, Call::Recv),
        returns(1, Answer::Got(5)),
    ];
    is(&rt, (None, 0), &events, Checked::GaveUp(1));
    is(&rt, (None, 1), &events, Checked::GaveUp(3));
    is(&rt, (None, 2), &events, Checked::Explained);
}

// Four threads send at once, six times. Then another one receives all in order but 21, and no more.
fn with_one_lost(alloc: Global) -> Result<Vec<Event<u64>>, AllocError> {
    let mut events = Vec::new(alloc);
    for round in 0..6u64 {
        for thread in 0..4usize {
            events.push(begins(thread, Call::Send(4 * round + thread as u64)))?;
        }
        for thread in 0..4usize {
            events.push(returns(thread, Answer::Sent))?;
        }
    }
    for message in 0..24u64 {
        if message != 21 {
            events.push(begins(4, Call::Recv))?;
            events.push(returns(4, Answer::Got(message)))?;
        }
    }
    events.push(begins(4, Call::TryRecv))?;
    events.push(returns(4, Answer::Empty))?;
    Ok(events)
}

// Each four of the sends may take effect in 24 orders, six times, unless those are left out in which
// the messages can't be received as recorded.
#[test]
fn a_message_is_missed_behind_many_sends_that_overlap(rt: HostRuntime) {
    let events = match with_one_lost(rt.alloc()) {
        Ok(events) => events,
        Err(_) => rt.abort(),
    };
    is(&rt, (None, 10_000), &events, Checked::Breaks(95));
}
