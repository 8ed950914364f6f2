//! Each outcome of the calls of `gates`, of which another makes a step while they wait.
use crate::gates::{LocalGate, Other, receive_through, send_through};
use flume::error::{RecvTimeoutError, SendTimeoutError};

#[test]
fn a_blocked_send_is_taken_while_it_waits(rt: HostRuntime) {
    let mut gate = LocalGate::new(rt.alloc(), Some(0), Some(Other::TryRecv));
    let sent = send_through(&rt, &mut gate, 7u64);
    assert!(rt; matches!(sent, Ok(())));
    assert!(rt; gate.received == Some(7) && gate.bell.rings == 1);
}

#[test]
fn a_blocked_send_that_nobody_takes_times_out(rt: HostRuntime) {
    let mut gate = LocalGate::new(rt.alloc(), Some(0), None);
    let sent = send_through(&rt, &mut gate, 7u64);
    assert!(rt; matches!(sent, Err(SendTimeoutError::Timeout(7))));
    assert!(rt; gate.bell.rings == 0);
}

#[test]
fn a_receive_ends_as_the_sender_goes_while_it_waits(rt: HostRuntime) {
    let mut gate: LocalGate<u64, _> = LocalGate::new(rt.alloc(), None, Some(Other::DropSender));
    let received = receive_through(&rt, &mut gate);
    assert!(rt; matches!(received, Err(RecvTimeoutError::Disconnected)));
    assert!(rt; gate.bell.rings == 1);
}
