//! Explanations of calls that are futures, as those of `rows`.
use crate::fixtures::check_each;

const FUTURES: &str = "
= a future that is parked leaves as it is dropped
unbounded
f: recv_async
f | recv plain -> parked 1
f | withdraw 1 -> gone
f -> dropped
= and has to
unbounded
f: recv_async
f | recv plain -> parked 1
! f -> dropped
= a future that was never polled makes no step
unbounded
f: send_async 1
f -> dropped
= a future that has sent its message may be dropped
unbounded
f: send_async 1
f | send 1 -> sent
f -> dropped
= so may one whose blocked message was received
bounded 0
f: send_async 1
f | send 1 -> pending 1
b: try_recv
b | try_recv -> got 1
b -> got 1
f | withdraw_send 1 -> accepted
f -> dropped
= a future that has got a message returns it
unbounded
a: send 1
a | try_send 1 -> sent
a -> sent
f: recv_async
f | recv plain -> got 1
f -> got 1
= so it can't be dropped
unbounded
a: send 1
a | try_send 1 -> sent
a -> sent
f: recv_async
f | recv plain -> got 1
! f -> dropped
= nor if it waited for it
unbounded
f: recv_async
f | recv plain -> parked 1
a: send 1
a | try_send 1 -> sent
a -> sent
f | poll 1 -> got 1
! f -> dropped
= one that was woken and is dropped leaves the message to others
unbounded
f: recv_async
f | recv plain -> parked 1
a: send 1
a | try_send 1 -> sent
a -> sent
f | withdraw 1 -> gone
f -> dropped
b: try_recv
b | try_recv -> got 1
b -> got 1
= a call that isn't of a future is not dropped
unbounded
a: send 1
a | try_send 1 -> sent
! a -> dropped
";

#[test]
fn futures_end_as_they_may(rt: HostRuntime) {
    check_each(&rt, rt.alloc(), FUTURES);
}
