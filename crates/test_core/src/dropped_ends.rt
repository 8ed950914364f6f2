//! The ends are dropped at each place of a script, in both orders. A judge that knows the replies
//! alone looks at messages, at what senders learn, and at which tickets are due.
use crate::fixtures::{holds, is, unwrap};
use crate::judge::Judge;
use flume_core::chan::Chan;
use flume_model::step::Step;
use flume_script::reading::{opening_of, step_of};
use flume_script::writing::write_reply;
use std::alloc::Global;
use std::process::Abort;

const SCRIPTS: &str = "
= receivers of three kinds wait, are woken and filled, and ask out of order
bounded 1
recv stream -> parked 1
recv plain -> parked 2
recv block -> parked 3
send 1 -> sent
send 2 -> sent filled 3
send 3 -> pending 4
try_send 4 -> full 4
poll 2 -> got 2
withdraw 1 -> gone
poll 3 -> got 1
try_recv -> got 3
poll_send 4 -> accepted
len -> 0
= messages for receivers that wait pass a capacity of 0
bounded 0
recv plain -> parked 1
recv arm -> parked 2
try_send 1 -> sent
try_send 2 -> sent
try_send 3 -> full 3
len -> 2
is_full -> true
poll 2 -> got 1
poll 1 -> got 2
= a receiver is filled behind one that is woken, and the senders go
unbounded
recv plain -> parked 1
recv block -> parked 2
send 9 -> sent
drop_sender -> done
poll 2 -> got 9
poll 1 -> ended
= a blocked message is withdrawn from the middle
bounded 1
send 1 -> sent
send 2 -> pending 1
send 3 -> pending 2
send 4 -> pending 3
withdraw_send 2 -> returned 3
try_recv -> got 1
try_recv -> got 2
try_recv -> got 4
try_recv -> empty
poll_send 1 -> accepted
poll_send 3 -> accepted
= a queue past its capacity lets no blocked message in until it is below it
bounded 1
recv plain -> parked 1
recv plain -> parked 2
send 1 -> sent
send 2 -> sent
send 3 -> pending 3
try_recv -> got 1
poll_send 3 -> waiting
try_recv -> got 2
poll_send 3 -> accepted
= a raised capacity lets blocked messages in, and a lowered one moves nothing
bounded 0
send 1 -> pending 1
send 2 -> pending 2
send 3 -> pending 3
set_capacity 2 -> done
recv plain -> got 1
set_capacity 0 -> done
poll_send 3 -> accepted
try_recv -> got 2
send 4 -> pending 4
withdraw_send 4 -> returned 4
try_recv -> got 3
recv block -> parked 5
set_capacity 7 -> done
poll 5 -> waiting
try_send 5 -> sent filled 5
poll 5 -> got 5
";

const MOST_MESSAGES: usize = 8;

const MOST_TICKETS: usize = 16;

// Before which step each end is dropped. The number of steps: behind the last. One more: never.
#[derive(Clone, Copy, Drop)]
struct DropPlaces {
    sender: usize,
    receiver: usize,
    is_sender_first: bool,
    // Whether at the end each ticket is polled before it is withdrawn.
    polls: bool,
}

#[derive(Drop)]
struct WorkedScript {
    capacity: Option<usize>,
    steps: Vec<Step<u64>>,
    answers: String,
}

#[derive(Drop)]
struct JudgedChannel {
    chan: Chan<u64, ()>,
    judge: Judge,
    text: String,
}

fn script_of(rt: &impl Abort, alloc: Global, text: &str) -> WorkedScript {
    let mut lines = text.split("\n");
    let opening = lines.next().unwrap_or("");
    let capacity = opening_of(opening.as_bytes()).expect(rt, "there is an opening");
    let (mut steps, mut answers) = (Vec::new(alloc), String::new(alloc));
    for line in lines {
        let (step, answer) = line.split_once(" -> ").expect(rt, "there is an arrow");
        let step = step_of(step.as_bytes()).expect(rt, "there is a step");
        unwrap(rt, steps.push(step));
        unwrap(rt, write!(answers, "{answer}\n"));
    }
    WorkedScript {
        capacity,
        steps,
        answers,
    }
}

impl JudgedChannel {
    fn make(&mut self, rt: &impl Abort, step: Step<u64>) {
        let reply = self.chan.step(step);
        unwrap(rt, self.judge.add(&step, &reply));
        unwrap(rt, write_reply(&mut self.text, &reply));
        for _ in 0..MOST_TICKETS {
            match self.chan.next_due() {
                Some(ticket) => self.judge.add_due(ticket),
                None => break,
            }
        }
        self.judge.check_all_due();
    }

    fn drop_ends(&mut self, rt: &impl Abort, places: DropPlaces, at: usize) {
        if places.is_sender_first && places.sender == at {
            self.make(rt, Step::DropSender);
        }
        if places.receiver == at {
            self.make(rt, Step::DropReceiver);
        }
        if !places.is_sender_first && places.sender == at {
            self.make(rt, Step::DropSender);
        }
    }

    // Of the tickets also 0 and the next one, which no call has.
    fn make_last_steps(&mut self, rt: &impl Abort, polls: bool) {
        self.make(rt, Step::SenderCount);
        self.make(rt, Step::ReceiverCount);
        for ticket in 0..self.judge.last_ticket.saturating_add(2) {
            if polls {
                self.make(rt, Step::Poll(ticket));
                self.make(rt, Step::PollSend(ticket));
            }
            self.make(rt, Step::Withdraw(ticket));
            self.make(rt, Step::WithdrawSend(ticket));
        }
        self.make(rt, Step::Drain);
        self.take_all(rt);
    }

    fn take_all(&mut self, rt: &impl Abort) {
        for _ in 0..MOST_MESSAGES {
            self.make(rt, Step::TryRecv);
        }
    }
}

// Whether the replies are right, and the texts of those to the script's own steps.
fn judged(
    rt: &impl Abort,
    alloc: Global,
    script: &WorkedScript,
    places: DropPlaces,
) -> (bool, String) {
    let mut channel = JudgedChannel {
        chan: Chan::new(alloc, script.capacity),
        judge: Judge::new(alloc),
        text: String::new(alloc),
    };
    for (at, step) in script.steps.iter().enumerate() {
        channel.drop_ends(rt, places, at);
        channel.make(rt, *step);
    }
    channel.drop_ends(rt, places, script.steps.len());
    let text = unwrap(rt, channel.text.clone());
    channel.make_last_steps(rt, places.polls);
    (unwrap(rt, channel.judge.is_right(alloc)), text)
}

fn are_right_with(
    rt: &impl Abort,
    alloc: Global,
    title: &str,
    script: &WorkedScript,
    sender: usize,
) {
    let places = script.steps.len().saturating_add(2);
    for number in 0..places.saturating_mul(4) {
        let places = DropPlaces {
            sender,
            receiver: number / 4,
            is_sender_first: number % 2 == 0,
            polls: number % 4 < 2,
        };
        let (is_right, _) = judged(rt, alloc, script, places);
        assert!(rt;
            is_right,
            "{title}: wrong with the ends dropped at {sender} and {number} / 4"
        );
    }
}

fn script_is_right(rt: &impl Abort, alloc: Global, block: &str) {
    let (title, script) = block.split_once("\n").unwrap_or((block, ""));
    let script = script_of(rt, alloc, script);
    let places = script.steps.len().saturating_add(2);
    let stay = DropPlaces {
        sender: places,
        receiver: places,
        is_sender_first: true,
        polls: true,
    };
    let (is_right, text) = judged(rt, alloc, &script, stay);
    holds(rt, (title, "not right with no end dropped"), is_right);
    is(rt, text.as_str(), script.answers.as_str());
    for sender in 0..places {
        are_right_with(rt, alloc, title, &script, sender);
    }
}

#[test]
fn messages_come_once_and_in_order_wherever_ends_are_dropped(rt: HostRuntime) {
    for block in SCRIPTS.trim_end().split("\n= ").skip(1) {
        script_is_right(&rt, rt.alloc(), block);
    }
}
