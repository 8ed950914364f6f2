//! A worker that can be told to stop, and that stops by itself if nothing comes for too long.
#![tactic(auto)]

use flume::error::NoMemory;
use flume::{Receiver, Runtime, SelectError, Selector, Sender, Waits};
use std::thread::JoinHandle;
use std::time::Duration;
use std::{io, thread};

/// Why a worker ended.
#[derive(Debug, Drop)]
enum EndReason {
    Stopped,
    Late,
}

#[derive(Drop)]
struct Worker<R: Waits> {
    rt: R,
    stop: Receiver<(), R>,
    jobs: Receiver<u64, R>,
    done: Sender<u64, R>,
}

impl<R: Waits> Worker<R> {
    /// Doubles numbers until it is to end, and says why it did. It waits for each up to `patience`.
    fn work(&self, patience: Duration) -> io::Result<EndReason> {
        for _ in self.rt.forever() {
            // The stop is tried first: a worker that is told to stop takes no other job.
            let next = Selector::new()
                .recv(&self.stop, |_| None)
                .recv(&self.jobs, Result::ok);
            match next.wait_timeout(patience) {
                Ok(Some(number)) => self.done.send(number.saturating_mul(2))?,
                Ok(None) => return Ok(EndReason::Stopped),
                Err(SelectError::Timeout) => return Ok(EndReason::Late),
                Err(SelectError::NoMemory) => return Err(NoMemory.into()),
            }
        }
        unreachable!()
    }
}

/// The other ends of a worker's channels, and the thread that it works in.
#[derive(Drop)]
struct Boss<R: Waits> {
    tell: Sender<(), R>,
    give: Sender<u64, R>,
    answers: Receiver<u64, R>,
    working: JoinHandle<io::Result<EndReason>>,
}

fn main(rt: HostRuntime) -> io::Result<()> {
    println!(rt; "{:?}", told_to_stop(rt)?)?;
    println!(rt; "{:?}", too_late(rt)?)
}

fn employ<R: Runtime>(rt: R, patience: Duration) -> io::Result<Boss<R>> {
    let (tell, stop) = flume::on(rt).bounded(1)?;
    let (give, jobs) = flume::on(rt).bounded(1)?;
    // Of capacity 0: the worker goes on once its answer was read.
    let (done, answers) = flume::on(rt).bounded(0)?;
    let worker = Worker {
        rt,
        stop,
        jobs,
        done,
    };
    let working = thread::spawn(&rt, move || worker.work(patience))?;
    Ok(Boss {
        tell,
        give,
        answers,
        working,
    })
}

fn told_to_stop<R: Runtime + Print>(rt: R) -> io::Result<EndReason> {
    // Longer than this program runs.
    let boss = employ(rt, Duration::from_secs(3600))?;
    let asked = ask(&rt, boss.tell, boss.give, boss.answers);
    // If the worker failed, its error says why; the other one only says that it is disconnected.
    let why = boss.working.join(&rt)?;
    asked?;
    Ok(why)
}

/// Gives the jobs, and then tells the worker to stop. If this fails, the dropped ends stop it.
fn ask<R: Runtime + Print>(
    rt: &R,
    tell: Sender<(), R>,
    give: Sender<u64, R>,
    answers: Receiver<u64, R>,
) -> io::Result<()> {
    for job in 1..=5 {
        give.send(job)?;
        println!(rt; "{}", answers.recv()?)?;
    }
    Ok(tell.send(())?)
}

/// Lets a worker wait for what doesn't come.
fn too_late<R: Runtime>(rt: R) -> io::Result<EndReason> {
    let boss = employ(rt, Duration::from_millis(20))?;
    let why = boss.working.join(&rt);
    drop((boss.tell, boss.give));
    why
}
