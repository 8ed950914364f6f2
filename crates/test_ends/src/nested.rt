//! Messages that hold an end of another channel.
use crate::fixtures::{channel, far_deadline, is, spawn, start_watchdog, unwrap};
use flume::error::{RecvError, RecvTimeoutError, TryRecvError, TrySendError};
use flume::{Receiver, Sender, Waits, WeakSender};
use std::alloc::Global;
use std::process::Abort;
use std::thread;
use std::thread::Threads;
use std::time::Instant;
use test_support::stoppable_clock::{ClockState, StoppableClock};
use test_support::work::Work;

const MEETING: &[Option<usize>] = &[None, Some(0)];

const QUEUEING: &[Option<usize>] = &[None, Some(1)];

#[derive(Drop)]
struct Request<R: Waits> {
    number: u64,
    answer: Sender<u64, R>,
}

#[derive(Drop)]
struct ServeRequests<R: Waits> {
    rx: Receiver<Request<R>, R>,
}

impl<R: Waits> Work for ServeRequests<R> {
    type Answer = ();

    fn work(self) {
        for request in &self.rx {
            let _ = request.answer.send(request.number.wrapping_mul(2));
        }
    }
}

// Asks for the double, on a channel of its own, which closes with the answer.
fn ask<R: Waits + Abort>(
    rt: R,
    alloc: Global,
    requests: &Sender<Request<R>, R>,
    (number, capacity): (u64, Option<usize>),
) {
    let (answer, rx) = channel(&rt, (rt, alloc), capacity);
    is(&rt, requests.send(Request { number, answer }).is_ok(), true);
    is(&rt, rx.recv().ok(), Some(number.wrapping_mul(2)));
    is(&rt, rx.recv() == Err(RecvError::Disconnected), true);
}

fn serves<R: Waits + Threads + Abort + Send + Sync + 'static>(
    rt: R,
    alloc: Global,
    capacity: Option<usize>,
) {
    let (requests, rx) = channel(&rt, (rt, alloc), capacity);
    let server = spawn(&rt, ServeRequests { rx });
    for number in 0..100 {
        ask(rt, alloc, &requests, (number, capacity));
    }
    drop(requests);
    server.join(&rt);
}

#[test]
fn requests_with_a_sender_for_the_answer_are_answered_in_another_thread(rt: HostRuntime) {
    let watchdog = start_watchdog(rt, rt.alloc());
    for &capacity in MEETING {
        serves(rt, rt.alloc(), capacity);
    }
    watchdog.end(&rt);
}

#[derive(Drop)]
struct SendEnd<T: Drop, R: Waits> {
    outer: Sender<T, R>,
    end: T,
}

impl<T: Drop, R: Waits> Work for SendEnd<T, R> {
    type Answer = bool;

    fn work(self) -> bool {
        let SendEnd { outer, end } = self;
        outer.send(end).is_ok()
    }
}

// Sends an end to another thread through a channel, and answers it.
fn through_a_thread<T, R>(rt: R, alloc: Global, capacity: Option<usize>, end: T) -> T
where
    T: Drop + Send + 'static,
    R: Waits + Threads + Abort + Send + Sync + 'static,
{
    let (outer, rx) = channel(&rt, (rt, alloc), capacity);
    let sending = spawn(&rt, SendEnd { outer, end });
    let end = unwrap(&rt, rx.recv());
    is(&rt, sending.join(&rt), true);
    end
}

fn is_sent<R: Waits>(weak: &WeakSender<u64, R>, message: u64) -> bool {
    match weak.upgrade() {
        Ok(Some(tx)) => tx.send(message).is_ok(),
        _ => false,
    }
}

// A sender, a receiver and a weak sender are of one channel as before.
fn send_ends<R: Waits + Threads + Abort + Send + Sync + 'static>(
    rt: R,
    alloc: Global,
    capacity: Option<usize>,
) {
    let (tx, rx) = channel::<u64, _, _>(&rt, (rt, alloc), None);
    let weak = through_a_thread(rt, alloc, capacity, unwrap(&rt, tx.downgrade()));
    let rx = through_a_thread(rt, alloc, capacity, rx);
    let tx = through_a_thread(rt, alloc, capacity, tx);
    is(&rt, is_sent(&weak, 1), true);
    is(&rt, tx.send(2).is_ok(), true);
    is(&rt, (rx.recv().ok(), rx.recv().ok()), (Some(1), Some(2)));
    drop(tx);
    is(&rt, rx.recv() == Err(RecvError::Disconnected), true);
    is(&rt, is_sent(&weak, 3), false);
}

#[test]
fn ends_go_through_a_channel_into_another_thread(rt: HostRuntime) {
    let watchdog = start_watchdog(rt, rt.alloc());
    for &capacity in MEETING {
        send_ends(rt, rt.alloc(), capacity);
    }
    watchdog.end(&rt);
}

// Leaves an end in a new channel, whose sender is dropped.
fn leave<T: Drop, R: Waits>(
    host: &impl Abort,
    (rt, alloc): (R, Global),
    capacity: Option<usize>,
    end: T,
) -> Receiver<T, R> {
    let (outer, outer_rx) = channel(host, (rt, alloc), capacity);
    is(host, outer.send(end).is_ok(), true);
    outer_rx
}

// A sender that is left in a channel lives as long as that; dropping a weak one closes nothing.
fn senders_live_on<R: Waits + Abort>(rt: R, alloc: Global, capacity: Option<usize>) {
    let (tx, rx) = channel::<u64, _, _>(&rt, (rt, alloc), capacity);
    drop(leave(&rt, (rt, alloc), capacity, unwrap(&rt, tx.downgrade())));
    is(&rt, tx.send(1).is_ok(), true);
    is(&rt, rx.recv().ok(), Some(1));
    let outer = leave(&rt, (rt, alloc), capacity, tx);
    is(&rt, rx.try_recv() == Err(TryRecvError::Empty), true);
    drop(outer);
    is(&rt, rx.try_recv() == Err(TryRecvError::Disconnected), true);
}

fn receiver_lives_on<R: Waits + Abort>(rt: R, alloc: Global, capacity: Option<usize>) {
    let (tx, rx) = channel::<u64, _, _>(&rt, (rt, alloc), capacity);
    let outer = leave(&rt, (rt, alloc), capacity, rx);
    is(&rt, tx.try_send(1).is_ok(), true);
    drop(outer);
    let closed = matches!(tx.try_send(2), Err(TrySendError::Disconnected(2)));
    is(&rt, closed, true);
}

#[test]
fn an_end_that_is_left_in_a_channel_is_dropped_with_it(rt: HostRuntime) {
    for &capacity in QUEUEING {
        senders_live_on(rt, rt.alloc(), capacity);
        receiver_lives_on(rt, rt.alloc(), capacity);
    }
}

fn receive_ends<H, R>(
    host: &H,
    (rt, alloc): (R, Global),
    (state, deadline): (&ClockState, Instant),
    capacity: Option<usize>,
)
where
    H: Waits + Threads + Sync + Abort,
    R: Waits + Send + Sync,
{
    let (tx, rx) = channel::<u64, _, _>(host, (rt, alloc), None);
    let outer = leave(host, (rt, alloc), capacity, tx);
    let closed = thread::scope(thread::scope_env(), host, move |scope| {
        let receive = move || rx.recv_deadline(deadline) == Err(RecvTimeoutError::Disconnected);
        let receiving = scope.spawn(receive);
        let receiving = receiving.expect(host, "a thread can be started");
        state.wait_for_readings(host, 1);
        drop(outer);
        receiving.join(host)
    });
    is(host, closed, true);
}

#[test]
fn a_parked_receive_ends_as_its_sender_is_dropped_with_a_channel(rt: HostRuntime) {
    let watchdog = start_watchdog(rt, rt.alloc());
    let deadline = far_deadline(&rt);
    for &capacity in QUEUEING {
        let state = ClockState::new();
        let clock = (StoppableClock { rt, state: &state }, rt.alloc());
        receive_ends(&rt, clock, (&state, deadline), capacity);
    }
    watchdog.end(&rt);
}

fn sender_is_dropped<H, R>(
    host: &H,
    (rt, alloc): (R, Global),
    (state, deadline): (&ClockState, Instant),
)
where
    H: Waits + Threads + Sync + Abort,
    R: Waits + Send + Sync,
{
    let (outer, outer_rx) = channel(host, (rt, alloc), Some(0));
    let (tx, rx) = channel::<u64, _, _>(host, (rt, alloc), Some(0));
    let refused = thread::scope(thread::scope_env(), host, move |scope| {
        let sending = scope.spawn(move || outer.send_deadline(tx, deadline).is_err());
        let sending = sending.expect(host, "a thread can be started");
        state.wait_for_readings(host, 1);
        drop(outer_rx);
        sending.join(host)
    });
    is(host, refused, true);
    is(host, rx.recv() == Err(RecvError::Disconnected), true);
}

#[test]
fn a_sender_in_a_blocked_send_is_dropped_with_it(rt: HostRuntime) {
    let watchdog = start_watchdog(rt, rt.alloc());
    let state = ClockState::new();
    let clock = (StoppableClock { rt, state: &state }, rt.alloc());
    sender_is_dropped(&rt, clock, (&state, far_deadline(&rt)));
    watchdog.end(&rt);
}
