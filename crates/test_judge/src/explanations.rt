//! Explanations worked by hand from `specs/` and `docs/MODEL.md`; `! ` marks the first wrong item.
use crate::fixtures::check_each;

const ORDERS: &str = "
= of two sends that overlap the one that began first takes effect first
unbounded
a: send 1
b: send 2
a | try_send 1 -> sent
b | try_send 2 -> sent
b -> sent
a -> sent
c: try_recv
c | try_recv -> got 1
c -> got 1
= or the one that began later does
unbounded
a: send 1
b: send 2
b | try_send 2 -> sent
b -> sent
a | try_send 1 -> sent
a -> sent
c: try_recv
c | try_recv -> got 2
c -> got 2
= a send that began after another one returned comes behind it
unbounded
a: send 1
a | try_send 1 -> sent
a -> sent
b: send 2
b | try_send 2 -> sent
b -> sent
c: try_recv
! c | try_recv -> got 2
c -> got 2
= it can't take effect before it began
unbounded
a: send 1
! b | try_send 2 -> sent
= nor can the other one once it has returned
unbounded
a: send 1
! a -> sent
";

const MESSAGES: &str = "
= a message is received once
unbounded
a: send 1
a | try_send 1 -> sent
a -> sent
b: try_recv
b | try_recv -> got 1
b -> got 1
c: try_recv
! c | try_recv -> got 1
= a receive finds a message that was sent before it began
unbounded
a: send 1
a | try_send 1 -> sent
a -> sent
b: try_recv
! b | try_recv -> empty
= it may come before a send that overlaps it
unbounded
b: try_recv
a: send 1
b | try_recv -> empty
a | try_send 1 -> sent
a -> sent
b -> empty
= a receive doesn't time out while a message is queued
unbounded
a: send 1
a | try_send 1 -> sent
a -> sent
b: recv_timeout
! b | try_recv -> empty
= no more messages are queued than were sent
unbounded
a: send 1
a | try_send 1 -> sent
a -> sent
b: len
! b | len -> 2
= a list is drained in its order
unbounded
a: send 1
a | try_send 1 -> sent
a -> sent
a: send 2
a | try_send 2 -> sent
a -> sent
b: drain
b | drain -> drained 1 2
! b -> drained 2 1
= and what was drained is returned
unbounded
a: send 1
a | try_send 1 -> sent
a -> sent
b: drain
b | drain -> drained 1
b -> drained 1
= a queued message comes after the last sender has gone
unbounded
a: send 1
a | try_send 1 -> sent
a -> sent
a: drop_sender
a | drop_sender -> done
a -> done
b: recv
b | try_recv -> got 1
b -> got 1
b: recv
b | try_recv -> ended
b -> disconnected
";

const MEETINGS: &str = "
= a send and a receive that overlap meet
bounded 0
a: send 1
b: recv
a | try_send 1 -> full 1
a | send 1 -> pending 1
b | try_recv -> got 1
b -> got 1
a | poll_send 1 -> accepted
a -> sent
= also if the receive is there first
bounded 0
b: recv
b | try_recv -> empty
b | recv block -> parked 1
a: send 1
a | try_send 1 -> sent filled 1
a -> sent
b | poll 1 -> got 1
b -> got 1
= a send that no receive overlaps isn't over
bounded 0
a: send 1
! a | try_send 1 -> sent
= and it is still blocked
bounded 0
a: send 1
a | try_send 1 -> full 1
a | send 1 -> pending 1
! a | poll_send 1 -> accepted
= a send that is parked doesn't return
bounded 0
a: send 1
a | try_send 1 -> full 1
a | send 1 -> pending 1
! a -> sent
= a send meets a receive, though it never returns
bounded 0
a: send 1
a | try_send 1 -> full 1
a | send 1 -> pending 1
b: try_recv
b | try_recv -> got 1
b -> got 1
= a try_send succeeds while a receive is parked
bounded 0
b: recv
b | try_recv -> empty
b | recv block -> parked 1
a: try_send 1
a | try_send 1 -> sent filled 1
a -> sent
b | poll 1 -> got 1
b -> got 1
= and doesn't while none is
bounded 0
a: try_send 1
! a | try_send 1 -> sent
= a try_send finds no receive that is open, and has made no step
bounded 0
b: recv
a: try_send 1
a | try_send 1 -> full 1
a -> full
= a channel isn't full with nothing queued
bounded 1
b: recv
a: try_send 1
! a | try_send 1 -> full 1
";

const WAITS: &str = "
= the message of a send that timed out isn't received
bounded 0
a: send_timeout 1
a | try_send 1 -> full 1
a | send 1 -> pending 1
a | withdraw_send 1 -> returned 1
a -> timeout
b: try_recv
! b | try_recv -> got 1
= nor does a send time out whose message was received
bounded 0
a: send_timeout 1
b: try_recv
a | try_send 1 -> full 1
a | send 1 -> pending 1
b | try_recv -> got 1
b -> got 1
a | withdraw_send 1 -> accepted
! a -> timeout
= a receive times out if nothing comes
bounded 0
b: recv_timeout
b | try_recv -> empty
b | recv block -> parked 1
b | poll 1 -> waiting
b | withdraw 1 -> gone
b -> timeout
= a receive without a deadline stays
bounded 0
b: recv
b | try_recv -> empty
b | recv block -> parked 1
! b | withdraw 1 -> gone
= a call that can't allocate what it would wait on is refused memory
bounded 0
a: send 1
a | try_send 1 -> full 1
a -> nomemory
= but it tries first
bounded 0
a: send 1
! a -> nomemory
= memory may be refused to the channel
unbounded
a: try_send 1
a | try_send 1 -> nomemory 1
a -> nomemory
= a try_send doesn't park
bounded 0
a: try_send 1
! a | send 1 -> pending 1
";

const THREADS: &str = "
= a thread has one call at a time
unbounded
a: len
! a: len
= a call that is not open makes no step
unbounded
a: len
a | len -> 0
a -> 0
! a | len -> 0
= nor does it return
unbounded
a: len
a | len -> 0
a -> 0
! a -> 0
= a call makes one step if it doesn't wait
unbounded
a: len
a | len -> 0
! a | len -> 0
= it makes its own step
unbounded
a: len
! a | drain -> drained
= with its own message
unbounded
a: send 1
! a | try_send 2 -> sent
= a parked call asks under its own ticket
unbounded
a: recv
a | try_recv -> empty
a | recv block -> parked 1
b: recv
b | try_recv -> empty
b | recv block -> parked 2
c: try_send 1
c | try_send 1 -> sent filled 1
c -> sent
! b | poll 1 -> got 1
= it returns what its step was answered
unbounded
a: try_recv
a | try_recv -> empty
! a -> disconnected
";

#[test]
fn calls_take_effect_between_their_events(rt: HostRuntime) {
    check_each(&rt, rt.alloc(), ORDERS);
}

#[test]
fn each_message_is_received_once_and_in_its_place(rt: HostRuntime) {
    check_each(&rt, rt.alloc(), MESSAGES);
}

#[test]
fn a_send_and_a_receive_meet_if_they_overlap(rt: HostRuntime) {
    check_each(&rt, rt.alloc(), MEETINGS);
}

#[test]
fn calls_that_wait_end_as_they_may(rt: HostRuntime) {
    check_each(&rt, rt.alloc(), WAITS);
}

#[test]
fn each_thread_makes_the_steps_of_its_own_call(rt: HostRuntime) {
    check_each(&rt, rt.alloc(), THREADS);
}
