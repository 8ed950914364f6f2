//! Timed calls by a clock that can't be read, and by clocks that each reading advances.
use crate::fixtures::{far_deadline, is, unwrap};
use flume::error::{RecvTimeoutError, SelectError, SendTimeoutError, TryRecvError, TrySendError};
use flume::{Receiver, Sender, Waits, bounded};
use std::alloc::Global;
use std::process::Abort;
use std::sync::atomic::{AtomicU64, Ordering};
use std::time::{Duration, Instant};
use test_support::arms::HowLong;
use test_support::clocks::{TickingClock, UnreadableClock};
use test_support::ends::one_hour;
use test_support::selections::{Winner, receive, send};

// Whether the call of this number times out, on a channel where nothing can be sent or received.
fn is_late<R: Waits>(
    host: &impl Abort,
    (tx, rx): (&Sender<u64, R>, &Receiver<u64, R>),
    (timeout, deadline): (Duration, Instant),
    (call, alloc): (u64, Global),
) -> bool {
    let mut list = unwrap(host, vec![in alloc; 1]);
    match call {
        0 => receive(rx, HowLong::Timeout(timeout)) == Err(SelectError::Timeout),
        1 => send(tx, 1, HowLong::Deadline(deadline)) == Err(SelectError::Timeout),
        2 => rx.recv_timeout(timeout) == Err(RecvTimeoutError::Timeout),
        3 => rx.recv_deadline(deadline) == Err(RecvTimeoutError::Timeout),
        4 => tx.send_timeout(1, timeout) == Err(SendTimeoutError::Timeout(1)),
        5 => tx.send_deadline(1, deadline) == Err(SendTimeoutError::Timeout(1)),
        6 => rx.recv_many_timeout(&mut list, 9, timeout) == Err(RecvTimeoutError::Timeout),
        7 => rx.recv_many_deadline(&mut list, 9, deadline) == Err(RecvTimeoutError::Timeout),
        8 => tx.send_many_timeout(list, timeout).is_err(),
        9 => tx.send_many_deadline(list, deadline).is_err(),
        10 => rx.iter_timeout(timeout).next().is_none(),
        _ => rx.iter_deadline(deadline).next().is_none(),
    }
}

#[test]
fn a_timed_call_is_late_if_the_clock_cannot_be_read(rt: HostRuntime) {
    let times = (one_hour(), far_deadline(&rt));
    let (tx, rx) = unwrap(&rt, bounded(UnreadableClock { rt }, rt.alloc(), 1, 0));
    for call in 0..12 {
        let late = is_late(&rt, (&tx, &rx), times, (call, rt.alloc()));
        assert!(rt; late, "call {call}");
    }
    is(&rt, rx.try_recv(), Err(TryRecvError::Empty));
    is(&rt, tx.try_send(1), Err(TrySendError::Full(1)));
}

#[test]
fn a_timed_call_that_need_not_wait_needs_no_clock(rt: HostRuntime) {
    let (hour, far) = (one_hour(), HowLong::Deadline(far_deadline(&rt)));
    let (tx, rx) = unwrap(&rt, bounded(UnreadableClock { rt }, rt.alloc(), 1, 1));
    is(&rt, send(&tx, 1, far), Ok(Winner::Sent(Ok(()))));
    is(&rt, rx.recv_timeout(hour), Ok(1));
    is(&rt, tx.send_timeout(2, hour), Ok(()));
    is(&rt, receive(&rx, far), Ok(Winner::First(Ok(2))));
    drop(tx);
    is(
        &rt,
        rx.recv_timeout(hour),
        Err(RecvTimeoutError::Disconnected),
    );
    let (tx, rx) = unwrap(&rt, bounded(UnreadableClock { rt }, rt.alloc(), 1, 1));
    drop(rx);
    is(
        &rt,
        tx.send_timeout(3, hour),
        Err(SendTimeoutError::Disconnected(3)),
    );
}

// How many microseconds each reading advances the clock, how many a call waits, and how often it
// reads the clock at least and at most. Nothing is rounded to seconds or milliseconds.
const CLOCKS: &[(u64, u64, u64, u64)] = &[(99_000, 100_000, 3, 6), (1, 40, 41, 44)];

#[test]
fn a_timeout_comes_no_sooner_than_the_clock_shows_it_and_little_later(rt: HostRuntime) {
    for &(micros, waits, least, most) in CLOCKS {
        let readings = AtomicU64::new(0);
        let readings = &readings;
        let clocks = TickingClock {
            rt,
            readings,
            micros,
        };
        let (tx, rx) = unwrap(&rt, bounded(clocks, rt.alloc(), 1, 0));
        let timeout = Duration::from_micros(waits);
        let began = Instant::now(&clocks).expect(&rt, "this clock can be read");
        let deadline = began.checked_add(timeout).expect(&rt, "it has a sum");
        for call in 0..12 {
            readings.store(0, Ordering::SeqCst);
            let late = is_late(&rt, (&tx, &rx), (timeout, deadline), (call, rt.alloc()));
            let read = readings.load(Ordering::SeqCst);
            let is_right = late && least <= read && read <= most;
            assert!(rt; is_right, "call {call}: {read}");
        }
    }
}
