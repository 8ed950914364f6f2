//! Collects messages into batches: a batch ends when it has five messages, or its time is over.
//!
//! What is printed depends on no time: a batch begins only once all that goes into it was sent.
#![tactic(auto)]

use flume::error::NoMemory;
use flume::{Receiver, RecvTimeoutError, Runtime, Sender, Waits};
use std::time::{Duration, Instant};
use std::{io, thread};

// A batch may get more, since a drain takes all that is queued.
const SIZE: usize = 5;

// In milliseconds.
const PATIENCE: u64 = 20;

/// Why a batch ended.
#[derive(Drop)]
enum End {
    Full,
    Late,
    Closed,
}

#[derive(Drop)]
struct Batch {
    messages: Vec<u64>,
    end: End,
}

fn main(rt: HostRuntime) -> io::Result<()> {
    // Of capacity 10: the first ten messages find room, so they are all sent before one is read.
    let (tx, messages) = flume::on(rt).bounded(10)?;
    let (sent, was_sent) = flume::on(rt).bounded(1)?;
    let (acknowledge, acknowledged) = flume::on(rt).bounded(1)?;
    let sender = thread::spawn(&rt, move || send_all(tx, &sent, &acknowledged))?;
    was_sent.recv()?;
    print(&rt, collect(&rt, &messages)?)?;
    // The sender waits for a word of this thread now, so nothing comes before the time is over.
    print(&rt, collect(&rt, &messages)?)?;
    acknowledge.send(())?;
    was_sent.recv()?;
    print(&rt, collect(&rt, &messages)?)?;
    sender.join(&rt)
}

/// Sends ten messages, and after a word from the other side three more, with a word each time.
fn send_all<R: Waits>(
    tx: Sender<u64, R>,
    sent: &Sender<(), R>,
    acknowledged: &Receiver<(), R>,
) -> io::Result<()> {
    send_some(&tx, 1, 10)?;
    sent.send(())?;
    acknowledged.recv()?;
    send_some(&tx, 11, 13)?;
    drop(tx);
    Ok(sent.send(())?)
}

fn send_some<R: Waits>(tx: &Sender<u64, R>, first: u64, last: u64) -> io::Result<()> {
    for number in first..=last {
        tx.send(number)?;
    }
    Ok(())
}

/// The next batch. A receive whose deadline is past still takes a message that is there.
fn collect<R: Runtime>(rt: &R, from: &Receiver<u64, R>) -> io::Result<Batch> {
    let now = Instant::now(rt)?;
    let deadline = now
        .checked_add(Duration::from_millis(PATIENCE))
        .unwrap_or(now);
    let mut messages = Vec::new(rt.alloc());
    for _ in rt.forever() {
        drain(from, &mut messages)?;
        if messages.len() >= SIZE {
            break;
        }
        let end = match from.recv_deadline(deadline) {
            Ok(message) => {
                messages.push(message)?;
                continue;
            }
            Err(RecvTimeoutError::Timeout) => End::Late,
            Err(RecvTimeoutError::Disconnected) => End::Closed,
            Err(RecvTimeoutError::NoMemory) => return Err(NoMemory.into()),
        };
        return Ok(Batch { messages, end });
    }
    let end = End::Full;
    Ok(Batch { messages, end })
}

/// Moves all that is queued into the list, in one step of the channel.
fn drain<R: Waits>(from: &Receiver<u64, R>, messages: &mut Vec<u64>) -> io::Result<()> {
    for message in from.drain()? {
        messages.push(message)?;
    }
    Ok(())
}

fn print<R: Print>(rt: &R, batch: Batch) -> io::Result<()> {
    let messages = &batch.messages;
    match batch.end {
        End::Full => println!(rt; "full: {messages:?}"),
        End::Late => println!(rt; "late: {messages:?}"),
        End::Closed => println!(rt; "closed: {messages:?}"),
    }
}
