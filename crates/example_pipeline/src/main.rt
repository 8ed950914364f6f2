//! Three threads in a row: one sends squares, one what they come to so far, one the means of these.
#![tactic(auto)]

ghost use Rattle.std.specs.Prelude.{◌≤◌};

use flume::{Receiver, Sender, Waits};
use std::{io, thread};

/// The sum of some numbers.
#[derive(Drop)]
struct Total {
    sum: u64,
    count: u64,
    ghost some: { 1 ≤ count },
}

fn main(rt: HostRuntime) -> io::Result<()> {
    let (to_add, squares) = flume::on(rt).bounded(2)?;
    let (to_divide, totals) = flume::on(rt).bounded(2)?;
    let (to_print, means) = flume::on(rt).bounded(2)?;
    let counting = thread::spawn(&rt, move || count(&to_add))?;
    let adding = thread::spawn(&rt, move || add(&squares, &to_divide))?;
    let dividing = thread::spawn(&rt, move || divide(&totals, &to_print))?;
    let mut means = means.iter();
    for mean in means.by_ref() {
        println!(rt; "{mean}")?;
    }
    means.ended()?;
    // If a stage failed, its error says why; those before it only say that no one received.
    dividing.join(&rt)?;
    adding.join(&rt)?;
    counting.join(&rt)
}

/// Sends the squares of 1 to 10. Then the only sender is dropped, and the next stage ends.
fn count<R: Waits>(squares: &Sender<u64, R>) -> io::Result<()> {
    for number in 1..=10u64 {
        squares.send(number.saturating_mul(number))?;
    }
    Ok(())
}

fn add<R: Waits>(numbers: &Receiver<u64, R>, totals: &Sender<Total, R>) -> io::Result<()> {
    let (mut sum, mut count) = (0u64, 0u64);
    let mut numbers = numbers.iter();
    for number in numbers.by_ref() {
        sum = sum.saturating_add(number);
        count = count.saturating_add(1);
        totals.send(Total { sum, count })?;
    }
    Ok(numbers.ended()?)
}

/// Sends the mean of each total. That none is of no number comes with the type through the channel.
fn divide<R: Waits>(totals: &Receiver<Total, R>, means: &Sender<u64, R>) -> io::Result<()> {
    let mut totals = totals.iter();
    for total in totals.by_ref() {
        means.send(total.sum / total.count)?;
    }
    Ok(totals.ended()?)
}
