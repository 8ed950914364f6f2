//! One thread sends the numbers from 1 to 9, another one sums them up.
#![tactic(auto)]

use flume::{Sender, Waits};
use std::{io, thread};

fn main(rt: HostRuntime) -> io::Result<()> {
    let (tx, rx) = flume::on(rt).bounded(4)?;
    let sender = thread::spawn(&rt, move || send_all(tx))?;
    let mut sum = 0u64;
    for _ in 1..10 {
        sum = sum.saturating_add(rx.recv()?);
    }
    sender.join(&rt)?;
    println!(rt; "the sum is {sum}")
}

fn send_all<R: Waits>(tx: Sender<u64, R>) -> io::Result<()> {
    for number in 1..10 {
        tx.send(number)?;
    }
    Ok(())
}
