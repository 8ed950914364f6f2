//! Three workers send into one channel, which is widened. Prints how many messages came, and their
//! sum. Status 1: a worker's came out of order. 3: no memory or thread. 4: it couldn't print.
#![tactic(auto)]

mod in_order;
#[cfg(test)]
mod rows;

use flume::{Receiver, Runtime, Sender, Waits};
use in_order::{MESSAGES, WORKERS, in_order};
use std::io::Write;
use std::process::ExitCode;
use std::{io, thread};

// A worker, and the number that it sends.
type Message = (u64, u64);

fn main(rt: HostRuntime) -> ExitCode {
    ExitCode::from(report(gather(rt), &mut io::writer(&rt)))
}

fn gather<R: Runtime>(rt: R) -> io::Result<Vec<Message>> {
    let (tx, mailbox) = flume::on(rt).bounded(1)?;
    let mut workers = Vec::new(rt.alloc());
    for worker in 0..WORKERS {
        let tx = tx.clone()?;
        workers.push(thread::spawn(&rt, move || send_all(&tx, worker))?)?;
    }
    mailbox.set_capacity(8)?;
    // The workers have clones of this one. The channel closes when the last clone is dropped.
    drop(tx);
    let messages = receive_all(&rt, &mailbox)?;
    for worker in workers {
        worker.join(&rt)?;
    }
    Ok(messages)
}

fn send_all<R: Waits>(mailbox: &Sender<Message, R>, worker: u64) -> io::Result<()> {
    for number in 1..=MESSAGES {
        mailbox.send((worker, number))?;
    }
    Ok(())
}

fn receive_all<R: Runtime>(rt: &R, mailbox: &Receiver<Message, R>) -> io::Result<Vec<Message>> {
    let mut all = Vec::new(rt.alloc());
    let mut messages = mailbox.iter();
    for message in messages.by_ref() {
        all.push(message)?;
    }
    messages.ended()?;
    Ok(all)
}

/// Writes the result, and answers the status.
fn report<W: Write>(gathered: io::Result<Vec<Message>>, output: &mut W) -> u8 {
    let (written, status) = match gathered {
        Err(_) => (output.write_all(b"out of memory\n"), 3),
        Ok(messages) if !in_order(&messages) => (output.write_all(b"out of order\n"), 1),
        Ok(messages) => {
            let (count, sum) = (messages.len(), sum(&messages));
            (writeln!(output, "{count} messages, sum {sum}"), 0)
        }
    };
    if written.is_ok() { status } else { 4 }
}

fn sum(messages: &[Message]) -> u64 {
    messages
        .iter()
        .fold(0, |sum, message| message.1.saturating_add(sum))
}
