//! What ends, futures, sinks and streams tell of their channel.
use crate::fixtures::{channel, is, unwrap};
use flume::{Description, Receiver, Sender, Waits};
use futures::test::MockTask;

// Each tells this of its channel, of capacity 2.
macro_rules! tell {
    ($rt:expr, $closed:expr, $len:expr, $($it:expr),*) => {$({
        is($rt, ($it.is_disconnected(), $it.is_empty()), ($closed, $len == 0));
        is($rt, ($it.len(), $it.is_full(), $it.capacity()), ($len, $len == 2, Some(2)));
    })*};
}

#[test]
fn futures_sinks_and_streams_tell_of_their_channel_what_its_ends_tell(rt: HostRuntime) {
    let (tx, rx) = channel(&rt, (rt, rt.alloc()), Some(2));
    let (send, sink) = (tx.send_async(9), tx.sink());
    for len in 0..3 {
        let (receive, stream) = (rx.recv_async(), rx.stream());
        tell!(&rt, false, len, tx, send, sink, rx, receive, stream);
        let _ = tx.try_send(1);
    }
    is(&rt, send.is_terminated(), false);
    drop(rx);
    tell!(&rt, true, 2, tx, send, sink);
    is(&rt, send.is_terminated(), true);
}

#[test]
fn a_receive_and_a_stream_are_terminated_once_their_channel_is_closed_and_empty(rt: HostRuntime) {
    let (tx, rx) = channel(&rt, (rt, rt.alloc()), Some(2));
    let (receive, stream) = (rx.recv_async(), rx.stream());
    is(&rt, tx.try_send(1), Ok(()));
    drop(tx);
    tell!(&rt, true, 1, rx, receive, stream);
    let has_ended = receive.is_terminated() || stream.is_terminated();
    is(&rt, has_ended, false);
    is(&rt, rx.try_recv(), Ok(1));
    is(&rt, receive.is_terminated() && stream.is_terminated(), true);
}

// How many sends are blocked, and how many receives wait, by both ends.
fn parked<R: Waits>(tx: &Sender<u64, R>, rx: &Receiver<u64, R>) -> [(usize, usize); 2] {
    let by_sender = (tx.blocked_senders(), tx.waiting_receivers());
    [by_sender, (rx.blocked_senders(), rx.waiting_receivers())]
}

#[test]
fn both_ends_count_the_sends_that_are_blocked_and_the_receives_that_wait(rt: HostRuntime) {
    let (tx, rx) = channel(&rt, (rt, rt.alloc()), Some(0));
    let task = unwrap(&rt, MockTask::new(&rt));
    let (mut first, mut second, mut third) = (tx.send_async(1), tx.send_async(2), rx.recv_async());
    is(&rt, parked(&tx, &rx), [(0, 0); 2]);
    is(&rt, task.poll(&mut first).is_pending(), true);
    is(&rt, task.poll(&mut second).is_pending(), true);
    is(&rt, parked(&tx, &rx), [(2, 0); 2]);
    is(&rt, rx.try_recv(), Ok(1));
    is(&rt, parked(&tx, &rx), [(1, 0); 2]);
    drop(second);
    is(&rt, task.poll(&mut third).is_pending(), true);
    is(&rt, parked(&tx, &rx), [(0, 1); 2]);
}

// Each describes its channel so.
macro_rules! describe {
    ($rt:expr, $expected:expr, $($it:expr),*) => {$(is($rt, $it.describe(), $expected);)*};
}

// A channel of capacity 1 with one sender and one receiver.
const EMPTY: Description = Description {
    len: 0,
    capacity: Some(1),
    blocked_senders: 0,
    waiting_receivers: 0,
    sender_count: 1,
    receiver_count: 1,
};

#[test]
fn both_ends_and_a_weak_sender_describe_a_full_channel(rt: HostRuntime) {
    let (tx, rx) = channel(&rt, (rt, rt.alloc()), Some(1));
    let (weak, _other) = (unwrap(&rt, tx.downgrade()), unwrap(&rt, tx.clone()));
    let task = unwrap(&rt, MockTask::new(&rt));
    let mut send = tx.send_async(2);
    is(&rt, tx.try_send(1), Ok(()));
    is(&rt, task.poll(&mut send).is_pending(), true);
    let full = Description {
        len: 1,
        blocked_senders: 1,
        sender_count: 2,
        ..EMPTY
    };
    describe!(&rt, full, tx, rx, weak);
}

#[test]
fn they_describe_a_channel_on_which_a_receive_waits_and_one_without_a_sender(rt: HostRuntime) {
    let (tx, rx): (Sender<u64, _>, _) = channel(&rt, (rt, rt.alloc()), Some(1));
    let weak = unwrap(&rt, tx.downgrade());
    let task = unwrap(&rt, MockTask::new(&rt));
    let mut receive = rx.recv_async();
    is(&rt, task.poll(&mut receive).is_pending(), true);
    let waited_for = Description {
        waiting_receivers: 1,
        ..EMPTY
    };
    describe!(&rt, waited_for, tx, rx, weak);
    drop(receive);
    describe!(&rt, EMPTY, tx, rx, weak);
    drop(tx);
    let closed = Description {
        sender_count: 0,
        ..EMPTY
    };
    describe!(&rt, closed, rx, weak);
}

#[test]
fn ends_sinks_and_streams_know_whether_they_are_of_one_channel(rt: HostRuntime) {
    let (tx, rx) = unwrap(&rt, flume::on(rt).number(1).unbounded::<u64>());
    let (other_tx, other_rx) = unwrap(&rt, flume::on(rt).number(2).unbounded());
    let (sink, stream) = (tx.sink(), rx.stream());
    is(&rt, sink.sender().same_channel(&tx), true);
    is(&rt, sink.sender().same_channel(&other_tx), false);
    is(&rt, sink.same_channel(&tx.sink()), true);
    is(&rt, sink.same_channel(&other_tx.sink()), false);
    is(&rt, rx.same_channel(&rx), true);
    is(&rt, rx.same_channel(&other_rx), false);
    is(&rt, stream.same_channel(&rx.stream()), true);
    is(&rt, stream.same_channel(&other_rx.stream()), false);
}
