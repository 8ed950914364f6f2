//! The threads that do the jobs.
ghost use Rattle.std.specs.Prelude.{◌≢◌, IfOk, IfErr, Err};
ghost use Rattle.parallel_map.specs.RightAnswers.{CanBring};

use crate::answer::Answer;
use crate::error::WorkError;
use crate::gather::Gather;
use crate::work::Work;
use flume::error::NoMemory;
use flume::{Receiver, Runtime, SendError, Sender, Waits};
use std::thread;
use std::thread::{JoinHandle, Threads};

const CAPACITY: usize = 16;

type Ended = Result<(), NoMemory>;

/// Another thread hands out the jobs, since this one, which receives the answers, can't wait for
/// room. If a thread can't be started, the ends of the channels are dropped, so the others end.
pub(crate) fn by_threads<W: Work + Sync, R: Runtime, G: Gather<W>>(
    rt: R,
    work: &W,
    jobs: &[W::Job],
    workers: usize,
    gather: &G,
) -> Result<G::Result, WorkError>
where
    W::Job: Send + Sync,
    W::Value: Send,
    ensures right { IfOk result (G.is_right jobs.now) }
    ensures error { result ≢ Err WorkError.NoThread → IfErr result (CanBring jobs.now) }
{
    thread::scope(
        thread::scope_env(),
        &rt,
        |scope| -> Result<G::Result, WorkError>
            ensures right { IfOk result (G.is_right jobs.entry.now) }
            ensures error { result ≢ Err WorkError.NoThread
                → IfErr result (CanBring jobs.entry.now) }
        {
            let (give, to_do) = flume::on(rt).bounded(CAPACITY)?;
            let (done, answers) = flume::on(rt).bounded(CAPACITY)?;
            let mut threads = Vec::new(rt.alloc());
            for _ in 0..workers.max(1) {
                let (to_do, done) = (to_do.clone()?, done.clone()?);
                threads.push(scope.spawn(move || serve(work, &to_do, &done))?)?;
            }
            drop(to_do);
            drop(done);
            threads.push(scope.spawn(move || feed(jobs, &give))?)?;
            gather_and_join(rt, jobs, answers, threads, gather)
        },
    )
}

fn serve<W: Work, R: Waits>(
    work: &W,
    to_do: &Receiver<(usize, W::Job), R>,
    done: &Sender<Answer<W>, R>,
) -> Ended {
    let mut jobs = to_do.iter();
    for (number, job) in jobs.by_ref() {
        match done.send(Answer::of(work, number, job)) {
            Ok(()) => {}
            Err(SendError::Disconnected(_)) => return Ok(()),
            Err(SendError::NoMemory(_)) => return Err(NoMemory),
        }
    }
    jobs.ended()
}

fn feed<J: Copy, R: Waits>(jobs: &[J], give: &Sender<(usize, J), R>) -> Ended {
    for (number, job) in jobs.iter().enumerate() {
        match give.send((number, *job)) {
            Ok(()) => {}
            Err(SendError::Disconnected(_)) => return Ok(()),
            Err(SendError::NoMemory(_)) => return Err(NoMemory),
        }
    }
    Ok(())
}

// The receiver is dropped first, so that the threads end.
fn gather_and_join<W: Work, R: Runtime, G: Gather<W>>(
    rt: R,
    jobs: &[W::Job],
    answers: Receiver<Answer<W>, R>,
    threads: Vec<JoinHandle<Ended>>,
    gather: &G,
) -> Result<G::Result, WorkError>
    ensures right { IfOk result (G.is_right jobs.now) }
    ensures error { IfErr result (CanBring jobs.now) }
{
    let mut answers = answers.into_iter();
    let found = gather.gather(rt.alloc(), jobs, answers.by_ref());
    let ended = answers.ended();
    drop(answers);
    join_all(&rt, threads)?;
    ended?;
    found
}

fn join_all<R: Threads>(rt: &R, threads: Vec<JoinHandle<Ended>>) -> Ended {
    let mut ended = Ok(());
    for thread in threads {
        ended = ended.and(thread.join(rt));
    }
    ended
}
