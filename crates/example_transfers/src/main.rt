//! Programs that prove an invariant of their own over a channel, whatever the schedule.
#![tactic(auto)]

mod phases;
mod tellers;
mod window;

use phases::phases;
use std::io;
use tellers::transfer;
use window::window;

fn main(rt: HostRuntime) -> io::Result<()> {
    let (first, second) = transfer(rt, (100, 50), &[30, 20], &[10, 5])?;
    let total = u128::from(first) + u128::from(second);
    println!(rt; "the total on both accounts: {total}")?;
    let items = phases(rt, rt.alloc(), &[1, 1, 1], &[1, 1], &[7, 8, 9])?;
    println!(rt; "what came in two phases: {items:?}")?;
    let (sent, got) = window(rt, rt.alloc(), 4, 3)?;
    println!(rt; "sent {sent:?}, and got {got:?}")?;
    Ok(())
}
