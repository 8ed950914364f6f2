//! The shapes in one thread.
use crate::bench::{Bench, Ends};
use crate::fault::Fault;
use flume::{Receiver, Sender, Waits};

pub(crate) fn send_each<R: Waits>(tx: &Sender<usize, R>, messages: usize) {
    for message in 0..messages {
        if tx.send(message).is_err() {
            return;
        }
    }
}

pub(crate) fn receive_each<R: Waits>(rx: &Receiver<usize, R>, messages: usize) -> usize {
    let mut sum = 0usize;
    for _ in 0..messages {
        let Ok(message) = rx.recv() else {
            return sum;
        };
        sum = sum.wrapping_add(message);
    }
    sum
}

pub(crate) fn seq<R: Waits>(ends: &Ends<R>, messages: usize) -> usize {
    send_each(&ends.tx, messages);
    receive_each(&ends.rx, messages)
}

pub(crate) fn inout<R: Waits>(ends: &Ends<R>, messages: usize) -> usize {
    let mut sum = 0usize;
    for message in 0..messages {
        sum = sum.wrapping_add(pass(ends, message));
    }
    sum
}

#[inline(always)]
fn pass<R: Waits>(ends: &Ends<R>, message: usize) -> usize {
    match ends.tx.send(message) {
        Ok(()) => ends.rx.recv().unwrap_or(0),
        Err(_) => 0,
    }
}

pub(crate) fn try_pair<R: Waits>(ends: &Ends<R>, messages: usize) -> usize {
    let mut sum = 0usize;
    for message in 0..messages {
        if ends.tx.try_send(message).is_ok() {
            sum = sum.wrapping_add(ends.rx.try_recv().unwrap_or(0));
        }
    }
    sum
}

impl<R: Waits> Bench<R> {
    /// For each message a channel made, the message passed, and both ends dropped.
    pub(crate) fn oneshot(&self) -> usize {
        let mut sum = 0usize;
        for message in 0..self.messages {
            if let Ok(ends) = self.open() {
                sum = sum.wrapping_add(pass(&ends, message));
            }
        }
        sum
    }
}

/// A loop as a user writes it: messages sent and received in turn, and then as many sent and taken.
pub(crate) fn plain<R: Waits>(ends: &Ends<R>, messages: usize) -> Result<usize, Fault> {
    let one_by_one = in_turn(ends, messages)?;
    Ok(one_by_one.wrapping_add(at_once(ends, messages)?))
}

fn in_turn<R: Waits>(ends: &Ends<R>, messages: usize) -> Result<usize, Fault> {
    let mut sum = 0usize;
    for message in 0..messages {
        ends.tx.send(message)?;
        sum = sum.wrapping_add(ends.rx.recv()?);
    }
    Ok(sum)
}

fn at_once<R: Waits>(ends: &Ends<R>, messages: usize) -> Result<usize, Fault> {
    for message in 0..messages {
        ends.tx.send(message)?;
    }
    Ok(take_each(&ends.rx))
}

fn take_each<R: Waits>(rx: &Receiver<usize, R>) -> usize {
    let mut sum = 0usize;
    for message in rx.try_iter() {
        sum = sum.wrapping_add(message);
    }
    sum
}
