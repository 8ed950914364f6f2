//! A run, timed.
use crate::arguments::{Arguments, Shape};
use crate::fault::Fault;
use crate::many::seq_many;
use crate::one_thread::{inout, plain, seq, try_pair};
use crate::threads::Crew;
use flume::{Receiver, Runtime, Sender, Waits, bounded, unbounded};
use futures::test::MockTask;
use std::alloc::Global;
use std::random::RandomSource;
use std::time::{Clock, Duration, Instant};

#[derive(Drop)]
pub(crate) struct Ends<R: Waits> {
    pub(crate) tx: Sender<usize, R>,
    pub(crate) rx: Receiver<usize, R>,
}

#[derive(Drop)]
pub(crate) struct Bench<R: Waits> {
    pub(crate) rt: R,
    pub(crate) alloc: Global,
    pub(crate) capacity: Option<usize>,
    pub(crate) messages: usize,
}

impl<R: Waits> Bench<R> {
    pub(crate) fn open(&self) -> Result<Ends<R>, Fault> {
        let opened = match self.capacity {
            None => unbounded(self.rt, self.alloc, 0),
            Some(capacity) => bounded(self.rt, self.alloc, 0, capacity),
        };
        match opened {
            Ok((tx, rx)) => Ok(Ends { tx, rx }),
            Err(_) => Err(Fault::NoMemory),
        }
    }
}

/// Times a run. The task is for the shapes polled by hand.
pub(crate) fn time<R: Runtime + RandomSource>(
    rt: R,
    alloc: Global,
    task: &MockTask,
    arguments: &Arguments,
) -> Result<Duration, Fault> {
    let bench = Bench {
        rt,
        alloc,
        capacity: arguments.capacity,
        messages: arguments.messages,
    };
    let Ok(mut start) = Instant::now(&rt) else {
        return Err(Fault::NoClock);
    };
    let sum = bench.run(arguments.shape, task, &mut start)?;
    let Ok(time) = start.elapsed(&rt) else {
        return Err(Fault::NoClock);
    };
    if sum == sum_sent(arguments.shape, arguments.messages) {
        Ok(time)
    } else {
        Err(Fault::WrongMessages)
    }
}

pub(crate) fn begin_anew<R: Clock>(rt: &R, start: &mut Instant) {
    if let Ok(now) = Instant::now(rt) {
        *start = now;
    }
}

fn sum_sent(shape: Shape, messages: usize) -> usize {
    let senders = match shape {
        Shape::Mpsc | Shape::Mpmc | Shape::MpmcMany | Shape::SelectRx => 4,
        Shape::Plain | Shape::AsyncPing => 2,
        _ => 1,
    };
    let mut sum = 0usize;
    for message in 0..messages / senders {
        sum = sum.wrapping_add(message);
    }
    sum.wrapping_mul(senders)
}

impl<R: Runtime + RandomSource> Bench<R> {
    // The sum of what is received. Restarts the time after a preparation.
    fn run(&self, shape: Shape, task: &MockTask, start: &mut Instant) -> Result<usize, Fault> {
        match shape {
            Shape::Spsc => self.in_threads(Crew::of(1)),
            Shape::Mpsc => self.in_threads(Crew::of(4)),
            Shape::Mpmc => self.in_threads(Crew {
                several: true,
                ..Crew::of(4)
            }),
            Shape::SpscMany => self.in_threads(Crew {
                many: true,
                ..Crew::of(1)
            }),
            Shape::MpmcMany => self.in_threads(Crew {
                several: true,
                many: true,
                ..Crew::of(4)
            }),
            Shape::AsyncPair => self.async_pair(),
            Shape::AsyncJoin => self.async_join(),
            Shape::AsyncPing => self.async_ping(),
            Shape::SelectRx => self.select_rx(),
            Shape::FloorLine => self.floor_line(),
            _ => self.in_one_thread(shape, task, start),
        }
    }
}

impl<R: Waits> Bench<R> {
    fn in_one_thread(
        &self,
        shape: Shape,
        task: &MockTask,
        start: &mut Instant,
    ) -> Result<usize, Fault> {
        match shape {
            Shape::Oneshot => Ok(self.oneshot()),
            Shape::AuditPair => self.audit_pair(),
            Shape::CheckPair => Ok(self.check_pair(start)),
            Shape::SelectSeq => Ok(self.select_seq()),
            Shape::FloorLock => Ok(self.floor_lock()),
            Shape::CrowdPoll
            | Shape::CrowdRandom
            | Shape::CrowdWithdraw
            | Shape::CrowdCancel
            | Shape::CrowdSend => Ok(self.crowd(shape, start)),
            _ => self.pass(shape, &self.open()?, task, start),
        }
    }

    fn pass(
        &self,
        shape: Shape,
        ends: &Ends<R>,
        task: &MockTask,
        start: &mut Instant,
    ) -> Result<usize, Fault> {
        match shape {
            Shape::Seq => Ok(seq(ends, self.messages)),
            Shape::SeqMany => Ok(seq_many(self.alloc, ends, self.messages)),
            Shape::Inout => Ok(inout(ends, self.messages)),
            Shape::TryPair => Ok(try_pair(ends, self.messages)),
            Shape::Plain => plain(ends, self.messages / 2),
            _ => Ok(task.enter(|cx| self.in_one_poll(shape, ends, start, cx))),
        }
    }
}
