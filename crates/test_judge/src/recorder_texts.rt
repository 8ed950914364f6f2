//! The recording of each call as text.
use crate::fixtures::unwrap;
use flume::error::{RecvError, RecvTimeoutError, SendTimeoutError, TryRecvError, TrySendError};
use futures::executor::block_on;
use futures::test::MockTask;
use judge_recorder::{Recorder, Recording, write_recording};
use std::alloc::Global;
use std::process::Abort;
use std::time::Duration;
use std::{str, thread};

// The recording of this recorder alone has this text.
fn text_is(
    rt: &impl Abort,
    alloc: Global,
    (recording, recorder): (Recording, Recorder<u64>),
    capacity: Option<usize>,
    wanted: &str,
) {
    let recorders = unwrap(rt, vec![in alloc; recorder]);
    let events = unwrap(rt, recording.events(recorders));
    let text = unwrap(rt, write_recording(alloc, capacity, events.as_slice()));
    assert_eq!(rt; unwrap(rt, str::from_utf8(text.as_slice())), wanted);
}

const SENDS_AND_RECEIVES: &str = "bounded 1
0: recv_timeout
0 -> timeout
0: try_recv
0 -> empty
0: send 7
0 -> sent
0: try_send 8
0 -> full
0: send_timeout 9
0 -> timeout
0: recv
0 -> got 7
0: drop_sender
0 -> done
0: recv
0 -> disconnected
0: drop_receiver
0 -> done
";

#[test]
fn sends_and_receives_are_recorded_with_their_answers(rt: HostRuntime) {
    let alloc = rt.alloc();
    let recording = unwrap(&rt, Recording::new(alloc));
    let mut own = unwrap(&rt, recording.recorder());
    let (tx, rx) = unwrap(&rt, flume::on(rt).bounded(1));
    assert_eq!(rt;
        own.recv_timeout(&rx, Duration::ZERO),
        Err(RecvTimeoutError::Timeout)
    );
    assert_eq!(rt; own.try_recv(&rx), Err(TryRecvError::Empty));
    assert_eq!(rt; own.send(&tx, 7), Ok(()));
    assert_eq!(rt; own.try_send(&tx, 8), Err(TrySendError::Full(8)));
    let late = own.send_timeout(&tx, 9, Duration::ZERO);
    assert_eq!(rt; late, Err(SendTimeoutError::Timeout(9)));
    assert_eq!(rt; own.recv(&rx), Ok(7));
    own.drop_sender(tx);
    assert_eq!(rt; own.recv(&rx), Err(RecvError::Disconnected));
    own.drop_receiver(rx);
    text_is(&rt, alloc, (recording, own), Some(1), SENDS_AND_RECEIVES);
}

const QUERIES: &str = "bounded 2
0: try_send 1
0 -> sent
0: try_send 2
0 -> sent
0: len
0 -> 2
0: is_empty
0 -> false
0: is_full
0 -> true
0: capacity
0 -> 2
0: set_capacity 3
0 -> done
0: drain
0 -> drained 1 2
0: clone_sender
0 -> done
0: clone_receiver
0 -> done
0: sender_count
0 -> 2
0: receiver_count
0 -> 2
0: drop_sender
0 -> done
0: drop_sender
0 -> done
0: clone_sender
0 -> noend
0: is_disconnected
0 -> true
";

#[test]
fn queries_drains_and_clones_are_recorded(rt: HostRuntime) {
    let alloc = rt.alloc();
    let recording = unwrap(&rt, Recording::new(alloc));
    let mut own = unwrap(&rt, recording.recorder());
    let (tx, rx) = unwrap(&rt, flume::on(rt).bounded(2));
    let _ = (own.try_send(&tx, 1), own.try_send(&tx, 2));
    let queue = (own.len(&tx), own.is_empty(&rx), own.is_full(&rx));
    assert_eq!(rt; queue, (2, false, true));
    let capacity = (own.capacity(&rx), own.set_capacity(&tx, 3));
    assert_eq!(rt; capacity, (Some(2), Ok(())));
    let mut messages = unwrap(&rt, own.drain(&rx));
    let messages = (messages.next(), messages.next(), messages.next());
    assert_eq!(rt; messages, (Some(1), Some(2), None));
    let other = unwrap(&rt, own.clone_sender(&tx));
    let third = unwrap(&rt, own.clone_receiver(&rx));
    assert_eq!(rt; (own.sender_count(&tx), own.receiver_count(&tx)), (2, 2));
    let weak = unwrap(&rt, tx.downgrade());
    own.drop_sender(tx);
    own.drop_sender(other);
    assert!(rt; unwrap(&rt, own.upgrade(&weak)).is_none());
    assert!(rt; own.is_disconnected(&third));
    text_is(&rt, alloc, (recording, own), Some(2), QUERIES);
}

const FUTURES: &str = "bounded 0
1: recv_async
2: send_async 7
2 -> sent
0: len
0 -> 1
1 -> dropped
3: recv_async
3 -> got 7
4: send_async 8
4 -> dropped
";

#[test]
fn futures_count_as_threads_and_record_that_they_were_dropped(rt: HostRuntime) {
    let alloc = rt.alloc();
    let recording = unwrap(&rt, Recording::new(alloc));
    let mut own = unwrap(&rt, recording.recorder());
    let (tx, rx) = unwrap(&rt, flume::on(rt).bounded(0));
    let task = unwrap(&rt, MockTask::new(&rt));
    let mut receive = own.recv_async(&rx);
    assert!(rt; task.poll(&mut receive).is_pending());
    assert_eq!(rt; unwrap(&rt, block_on(&rt, own.send_async(&tx, 7))), Ok(()));
    assert_eq!(rt; own.len(&tx), 1);
    drop(receive);
    let mut unpolled = own.recv_async(&rx);
    assert!(rt; task.poll(&mut unpolled).is_ready());
    drop(unpolled);
    drop(own.send_async(&tx, 8));
    text_is(&rt, alloc, (recording, own), Some(0), FUTURES);
}

const TWO_THREADS: &str = "unbounded
1: send 7
1 -> sent
1: drop_sender
1 -> done
0: recv
0 -> got 7
";

#[test]
fn two_threads_have_one_recording(rt: HostRuntime) {
    let alloc = rt.alloc();
    let recording = unwrap(&rt, Recording::new(alloc));
    let mut own = unwrap(&rt, recording.recorder());
    let mut other = unwrap(&rt, recording.recorder());
    let (tx, rx) = unwrap(&rt, flume::on(rt).unbounded());
    let sends = move || {
        let _ = other.send(&tx, 7);
        other.drop_sender(tx);
        other
    };
    let thread = unwrap(&rt, thread::spawn(&rt, sends));
    let other = thread.join(&rt);
    assert_eq!(rt; own.recv(&rx), Ok(7));
    let recorders = unwrap(&rt, vec![in alloc; own, other]);
    let events = unwrap(&rt, recording.events(recorders));
    let text = unwrap(&rt, write_recording(alloc, None, events.as_slice()));
    assert_eq!(rt; unwrap(&rt, str::from_utf8(text.as_slice())), TWO_THREADS);
}
