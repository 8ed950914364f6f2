//! Programs of threads and channels of which it is proved what comes out, whatever the schedule.
#![tactic(auto)]

mod asking;
mod each_call;
mod exchanging;
mod piping;
mod pooling;
mod threads;

use asking::ask;
use each_call::each_call;
use exchanging::exchange;
use piping::pipeline;
use pooling::pool;
use std::io;

fn main(rt: HostRuntime) -> io::Result<()> {
    let first = [1, 2, 3, 4, 5, 6, 7, 8];
    let second = [100, 200, 300, 400, 500];
    let (mut all, right) = exchange(rt, rt.alloc(), &first, &second)?;
    all.extend_from_slice(&right)?;
    all.sort()?;
    println!(rt; "what was exchanged: {all:?}")?;
    let halves = pipeline(rt, rt.alloc(), &second)?;
    println!(rt; "the halves, in order: {halves:?}")?;
    let mut halves = pool(rt, rt.alloc(), &first)?;
    halves.sort()?;
    println!(rt; "the halves, by a pool: {halves:?}")?;
    let items = each_call(rt, rt.alloc())?;
    println!(rt; "by each call: {items:?}")?;
    let (first, second) = ask(rt, rt.alloc(), &first, &second)?;
    println!(rt; "the replies: {first:?} {second:?}")?;
    Ok(())
}
