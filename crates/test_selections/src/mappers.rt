//! When a winner's mapper is called, and the debug text of a selector.
use crate::fixtures::{channel, holds, is, unwrap};
use flume::error::{RecvError, TrySendError};
use flume::{Receiver, Selector, Sender, Waits};
use std::alloc::Global;
use std::fmt::Debug;
use std::process::Abort;
use test_support::arms::{HowLong, last_recv};
use test_support::selections::Winner;

// The answer that a mapper was handed, that of a send to the arm that lost, and how many messages
// are queued in its own channel.
type MapperResult = (Result<u64, RecvError>, Result<(), TrySendError<u64>>, usize);

fn look_around<R: Waits>(
    lost: (&Sender<u64, R>, &Receiver<u64, R>),
    rx: &Receiver<u64, R>,
) -> Option<MapperResult> {
    let look = |answer| Some((answer, lost.0.try_send(7), rx.len()));
    let first = Selector::new().recv(lost.1, |_| None);
    last_recv(first, rx, look, HowLong::Endless).unwrap_or(None)
}

#[test]
fn a_mapper_is_called_once_the_others_left_and_may_use_the_channels(rt: HostRuntime) {
    let (tx0, rx0) = channel(rt, rt.alloc(), Some(0));
    let (tx1, rx1) = channel(rt, rt.alloc(), Some(2));
    is(&rt, tx1.try_send(1), Ok(()));
    is(&rt, tx1.try_send(2), Ok(()));
    let found = look_around((&tx0, &rx0), &rx1);
    let (message, offer, len) = found.expect(&rt, "the second arm has a message");
    holds(&rt, message == Ok(1));
    is(&rt, offer, Err(TrySendError::Full(7)));
    is(&rt, len, 1);
}

fn debug_is_selector(rt: &impl Abort, alloc: Global, selector: &impl Debug) {
    let shown = unwrap(rt, format!(in alloc; "{selector:?}"));
    holds(rt, shown.as_str() == "Selector");
}

fn two_arms_are_shown<R: Waits + Abort>(
    rt: &R,
    alloc: Global,
    tx: &Sender<u64, R>,
    rx: &Receiver<u64, R>,
) {
    let selector = Selector::new()
        .recv(rx, Winner::First)
        .send(tx, 1, Winner::Sent);
    debug_is_selector(rt, alloc, &selector);
}

#[test]
fn a_selector_shows_its_name(rt: HostRuntime) {
    let (tx, rx) = channel(rt, rt.alloc(), None);
    debug_is_selector(&rt, rt.alloc(), &Selector::<'_, Winner>::default());
    two_arms_are_shown(&rt, rt.alloc(), &tx, &rx);
}
