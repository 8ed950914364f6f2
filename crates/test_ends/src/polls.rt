//! Polls of lists, of futures that own their ends, and of a stream that is refused memory.
use crate::fixtures::{channel, is, unwrap};
use flume::error::{NoMemory, RecvError, SendError, TryRecvError};
use futures::Stream;
use futures::task::Poll::{Pending, Ready};
use futures::test::MockTask;
use std::collections::VecDeque;
use test_support::counting::Counting;

#[test]
fn lists_are_polled_in_order_and_what_blocks_is_kept_and_the_rest_left(rt: HostRuntime) {
    let (tx, rx) = channel(&rt, (rt, rt.alloc()), Some(2));
    let task = unwrap(&rt, MockTask::new(&rt));
    let (mut sink, mut stream) = (tx.sink(), rx.stream());
    let mut list = VecDeque::from_vec(unwrap(&rt, vec![in rt.alloc(); 1, 2, 3, 4]));
    let mut got = unwrap(&rt, vec![in rt.alloc(); 0]);
    let sent = task.enter(|cx| sink.poll_send_many(cx, &mut list));
    is(&rt, (sent, list.len()), (Pending, 1));
    let came = task.enter(|cx| stream.poll_recv_many(cx, &mut got, 2));
    is(&rt, came, Ready(Ok(2)));
    let sent = task.enter(|cx| sink.poll_send_many(cx, &mut list));
    is(&rt, (sent, list.len()), (Ready(Ok(())), 0));
    let came = task.enter(|cx| stream.poll_recv_many(cx, &mut got, 64));
    is(&rt, came, Ready(Ok(2)));
    let came = task.enter(|cx| stream.poll_recv_many(cx, &mut got, 64));
    is(&rt, came, Pending);
    is(&rt, got.as_slice(), [0, 1, 2, 3, 4].as_slice());
}

#[test]
fn futures_that_own_their_ends_close_the_channel_as_they_are_dropped(rt: HostRuntime) {
    let (tx, rx) = channel(&rt, (rt, rt.alloc()), Some(1));
    let task = unwrap(&rt, MockTask::new(&rt));
    let (mut stream, mut got) = (rx.stream(), Vec::new(rt.alloc()));
    let mut send = tx.into_send_async(7);
    is(&rt, rx.try_recv(), Err(TryRecvError::Empty));
    is(&rt, task.poll(&mut send), Ready(Ok(())));
    is(&rt, rx.try_recv(), Ok(7));
    drop(send);
    let came = task.enter(|cx| stream.poll_recv_many(cx, &mut got, 64));
    is(&rt, came, Ready(Err(RecvError::Disconnected)));
    let (tx, rx) = channel(&rt, (rt, rt.alloc()), Some(1));
    let mut receive = rx.into_recv_async();
    is(&rt, task.poll(&mut receive), Pending);
    is(&rt, tx.try_send(8), Ok(()));
    is(&rt, task.poll(&mut receive), Ready(Ok(8)));
    drop(receive);
    let mut list = VecDeque::from_vec(unwrap(&rt, vec![in rt.alloc(); 5, 6]));
    let sent = task.enter(|cx| tx.sink().poll_send_many(cx, &mut list));
    is(&rt, sent, Ready(Err(SendError::Disconnected(5))));
    is(&rt, (list.pop_front(), list.len()), (Some(6), 0));
}

#[test]
fn a_stream_says_that_it_was_refused_memory_to_wait_until_its_next_poll(rt: HostRuntime) {
    let heap = Counting::new(rt.alloc());
    let (tx, rx) = unwrap(&rt, flume::on(rt).allocator(&heap).bounded::<u64>(1));
    let task = unwrap(&rt, MockTask::new(&rt));
    let mut stream = rx.stream();
    heap.refuse(true);
    is(&rt, task.enter(|cx| stream.poll_next(cx)), Ready(None));
    is(&rt, (stream.fault(), stream.ended()), (true, Err(NoMemory)));
    heap.refuse(false);
    is(&rt, tx.try_send(5), Ok(()));
    is(&rt, task.enter(|cx| stream.poll_next(cx)), Ready(Some(5)));
    is(&rt, (stream.fault(), stream.ended()), (false, Ok(())));
}
