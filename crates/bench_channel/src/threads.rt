//! The shapes in several threads. Making channels and threads is in the time.
use crate::bench::{Bench, Ends};
use crate::fault::Fault;
use crate::floor::fill_each;
use crate::loops::RECEIVES_FIRST;
use crate::many::{receive_blocks, send_blocks};
use crate::one_thread::{receive_each, send_each};
use crate::polled::to_and_fro;
use flume::{Receiver, Runtime, Sender, Waits};
use std::random::RandomSource;
use std::sync::Arc;
use std::sync::atomic::AtomicU64;
use std::thread;
use std::thread::JoinHandle;

#[derive(Drop)]
pub(crate) enum Work<R: Waits> {
    Sends(Sender<usize, R>),
    Receives(Receiver<usize, R>),
    SendsMany(Sender<usize, R>),
    ReceivesMany(Receiver<usize, R>),
    /// It sends back what it receives, in a task.
    Echoes(Ends<R>),
    /// It writes messages into a word, and uses no channel.
    Fills(Arc<AtomicU64>),
}

impl<R: Runtime + RandomSource> Work<R> {
    fn pass_each(&self, rt: &R, messages: usize) -> usize {
        match self {
            Work::Sends(tx) => {
                send_each(tx, messages);
                0
            }
            Work::Receives(rx) => receive_each(rx, messages),
            Work::SendsMany(tx) => {
                send_blocks(rt.alloc(), tx, messages);
                0
            }
            Work::ReceivesMany(rx) => receive_blocks(rt.alloc(), rx, messages),
            Work::Echoes(ends) => to_and_fro(rt, ends, RECEIVES_FIRST, messages).unwrap_or(0),
            Work::Fills(line) => {
                fill_each(rt, line, messages);
                0
            }
        }
    }
}

#[derive(Clone, Copy)]
pub(crate) struct Crew {
    pub(crate) senders: usize,
    /// As many others receive; else this thread does.
    pub(crate) several: bool,
    pub(crate) many: bool,
}

impl Crew {
    /// This many threads send, and this one receives, a message a call.
    pub(crate) fn of(senders: usize) -> Crew {
        Crew {
            senders,
            several: false,
            many: false,
        }
    }
}

impl<R: Runtime + RandomSource> Bench<R> {
    pub(crate) fn in_threads(&self, crew: Crew) -> Result<usize, Fault> {
        let each = self.messages / crew.senders.max(1);
        let ends = self.open()?;
        let mut threads = Vec::new(self.alloc);
        self.start_each(&mut threads, &ends, crew, each)?;
        let Ends { tx, rx } = ends;
        drop(tx);
        let left = if crew.several { 0 } else { self.messages };
        let sum = if crew.many {
            receive_blocks(self.alloc, &rx, left)
        } else {
            receive_each(&rx, left)
        };
        Ok(sum.wrapping_add(self.join_all(threads)))
    }

    pub(crate) fn start_each(
        &self,
        threads: &mut Vec<JoinHandle<usize>>,
        ends: &Ends<R>,
        crew: Crew,
        each: usize,
    ) -> Result<(), Fault> {
        for _ in 0..crew.senders {
            self.start_clone(threads, ends, (true, crew.many), each)?;
            if crew.several {
                self.start_clone(threads, ends, (false, crew.many), each)?;
            }
        }
        Ok(())
    }

    fn start_clone(
        &self,
        threads: &mut Vec<JoinHandle<usize>>,
        ends: &Ends<R>,
        (sends, many): (bool, bool),
        each: usize,
    ) -> Result<(), Fault> {
        let work = if sends {
            match ends.tx.clone() {
                Ok(tx) if many => Work::SendsMany(tx),
                Ok(tx) => Work::Sends(tx),
                Err(_) => return Err(Fault::NoMemory),
            }
        } else {
            match ends.rx.clone() {
                Ok(rx) if many => Work::ReceivesMany(rx),
                Ok(rx) => Work::Receives(rx),
                Err(_) => return Err(Fault::NoMemory),
            }
        };
        self.start(threads, work, each)
    }

    pub(crate) fn start(
        &self,
        threads: &mut Vec<JoinHandle<usize>>,
        work: Work<R>,
        each: usize,
    ) -> Result<(), Fault> {
        let rt = self.rt;
        let Ok(thread) = thread::spawn(&rt, move || work.pass_each(&rt, each)) else {
            return Err(Fault::NoThread);
        };
        match threads.push(thread) {
            Ok(()) => Ok(()),
            Err(_) => Err(Fault::NoMemory),
        }
    }

    pub(crate) fn join_all(&self, threads: Vec<JoinHandle<usize>>) -> usize {
        let mut sum = 0usize;
        for thread in threads {
            sum = sum.wrapping_add(thread.join(&self.rt));
        }
        sum
    }
}
