//! Selections of a few shapes.
use crate::arms::{HowLong, last_recv, last_send};
use flume::error::{RecvError, SelectError, SendError};
use flume::{Receiver, Selector, Sender, Waits};
use std::alloc::Allocator;

/// Which arm of a selection won, and what it answered.
#[derive(Debug, PartialEq, Eq, Drop)]
pub enum Winner {
    First(Result<u64, RecvError>),
    Second(Result<u64, RecvError>),
    Third(Result<u64, RecvError>),
    Sent(Result<(), SendError<u64>>),
}

/// Receives by one arm.
pub fn receive<R: Waits, A: Allocator + Copy>(
    rx: &Receiver<u64, R, A>,
    how: HowLong,
) -> Result<Winner, SelectError> {
    last_recv(Selector::new(), rx, Winner::First, how)
}

/// Sends by one arm.
pub fn send<R: Waits, A: Allocator + Copy>(
    tx: &Sender<u64, R, A>,
    message: u64,
    how: HowLong,
) -> Result<Winner, SelectError> {
    last_send(Selector::new(), tx, message, Winner::Sent, how)
}

/// Sends this message, or receives.
pub fn send_or_receive<R: Waits, A: Allocator + Copy>(
    tx: &Sender<u64, R, A>,
    message: u64,
    rx: &Receiver<u64, R, A>,
    how: HowLong,
) -> Result<Winner, SelectError> {
    let first = Selector::new().send(tx, message, Winner::Sent);
    last_recv(first, rx, Winner::First, how)
}

/// The same, in the other order.
pub fn receive_or_send<R: Waits, A: Allocator + Copy>(
    rx: &Receiver<u64, R, A>,
    tx: &Sender<u64, R, A>,
    message: u64,
    how: HowLong,
) -> Result<Winner, SelectError> {
    let first = Selector::new().recv(rx, Winner::First);
    last_send(first, tx, message, Winner::Sent, how)
}
