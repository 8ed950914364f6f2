//! A scheduler of one thread: each turn does one step of one task. That none is lost is proved.
#![tactic(auto)]

mod run_queue;

use flume_error::error::NoMemory;
use run_queue::{RunQueue, Task, Turn};
use std::io;
use std::sync::Wait;

// The number of each task, and how many steps it takes.
const TASKS: [(u64, u64); 3] = [(1, 3), (2, 1), (3, 2)];

fn main(rt: HostRuntime) -> io::Result<()> {
    let mut queue = RunQueue::new(rt.alloc());
    for (number, steps) in TASKS {
        if queue.add(Task { number, steps }).is_err() {
            return Err(NoMemory.into());
        }
    }
    run(&rt, &mut queue)
}

fn run<R: Wait + Print>(rt: &R, queue: &mut RunQueue) -> io::Result<()> {
    for _ in rt.forever() {
        match queue.turn() {
            Turn::Idle => return Ok(()),
            Turn::Done(number) => println!(rt; "task {number}: done")?,
            Turn::Again(task) => println!(rt; "task {}: {} to go", task.number, task.steps)?,
        }
    }
    unreachable!()
}
