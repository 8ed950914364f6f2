//! A thread of a run: its ends, and its random calls.

use crate::ends::{OpenReceive, OpenSend, TestReceiver, TestSender};
use crate::random::Random;
use flume::Waits;
use futures::test::MockTask;
use judge_recorder::{End, Recorder};
use std::alloc::Global;
use std::hint::spin_loop;
use std::thread;
use std::time::Duration;

/// A thread, with its first ends, which its futures borrow. It blocks only in a send without a
/// receiver, or in a receive without a sender: other threads' drops of their ends free it.
#[derive(Drop)]
pub(crate) struct Caller<'e, 'h, R: Waits> {
    recorder: Recorder<u64>,
    random: Random,
    message: u64,
    sender: &'e Option<TestSender<'h, R>>,
    receiver: &'e Option<TestReceiver<'h, R>>,
    senders: Vec<TestSender<'h, R>>,
    receivers: Vec<TestReceiver<'h, R>>,
    send: Option<OpenSend<'e, 'h, R>>,
    receive: Option<OpenReceive<'e, 'h, R>>,
}

impl<'e, 'h, R: Waits> Caller<'e, 'h, R> {
    /// A thread with these first ends. Its first message is the number after this one.
    pub(crate) fn new(
        alloc: Global,
        (recorder, random, message): (Recorder<u64>, Random, u64),
        sender: &'e Option<TestSender<'h, R>>,
        receiver: &'e Option<TestReceiver<'h, R>>,
    ) -> Self {
        Caller {
            recorder,
            random,
            message,
            sender,
            receiver,
            senders: Vec::new(alloc),
            receivers: Vec::new(alloc),
            send: None,
            receive: None,
        }
    }

    /// Makes this many calls, and drops its futures and all ends but the first.
    pub(crate) fn run(mut self, task: &MockTask, calls: u64) -> Recorder<u64> {
        for _ in 0..calls {
            self.pause();
            self.random_call(task);
        }
        self.send = None;
        self.receive = None;
        let Caller {
            mut recorder,
            senders,
            receivers,
            ..
        } = self;
        for sender in senders {
            recorder.drop_sender(sender);
        }
        for receiver in receivers {
            recorder.drop_receiver(receiver);
        }
        recorder
    }

    fn pause(&mut self) {
        match self.random.below(8) {
            0 => thread::yield_now(),
            1 | 2 => {
                for _ in 0..self.random.below(500) {
                    spin_loop();
                }
            }
            _ => {}
        }
    }

    fn short(&mut self) -> Duration {
        Duration::from_micros(self.random.below(300))
    }

    fn next_message(&mut self) -> u64 {
        self.message = self.message.wrapping_add(1);
        self.message
    }

    fn random_call(&mut self, task: &MockTask) {
        let sends = match (self.sender, self.receiver) {
            (Some(_), Some(_)) => self.random.below(2) == 0,
            (sender, _) => sender.is_some(),
        };
        match self.random.below(20) {
            0 | 1 => self.poll_future(task, sends),
            2 if sends => self.clone_sender(),
            2 => self.clone_receiver(),
            3 if sends => self.drop_sender(),
            3 => self.drop_receiver(),
            4 | 5 => self.query(sends),
            _ if sends => self.call_sender(),
            _ => self.call_receiver(),
        }
    }

    fn call_sender(&mut self) {
        let (message, short) = (self.next_message(), self.short());
        let Some(tx) = self.sender else {
            return;
        };
        match (self.random.below(4), self.receiver) {
            (0, _) => {
                let _ = self.recorder.send_timeout(tx, message, short);
            }
            (1, None) => {
                let _ = self.recorder.send(tx, message);
            }
            _ => {
                let _ = self.recorder.try_send(tx, message);
            }
        }
    }

    fn call_receiver(&mut self) {
        let short = self.short();
        let Some(rx) = self.receiver else {
            return;
        };
        match (self.random.below(12), self.sender) {
            (0, _) => {
                let _ = self.recorder.drain(rx);
            }
            (1..=4, _) => {
                let _ = self.recorder.recv_timeout(rx, short);
            }
            (5..=7, None) => {
                let _ = self.recorder.recv(rx);
            }
            _ => {
                let _ = self.recorder.try_recv(rx);
            }
        }
    }

    fn query(&mut self, sends: bool) {
        let (number, capacity) = (self.random.below(9), self.random.below(4) as usize);
        let recorder = &mut self.recorder;
        match (sends, self.sender, self.receiver) {
            (true, Some(tx), _) => query_end(recorder, tx, number, capacity),
            (_, _, Some(rx)) => query_end(recorder, rx, number, capacity),
            _ => {}
        }
    }

    fn clone_sender(&mut self) {
        let Some(tx) = self.sender else {
            return;
        };
        let cloned = if self.random.below(3) > 0 {
            self.recorder.clone_sender(tx).ok()
        } else {
            match tx.downgrade() {
                Ok(weak) => self.recorder.upgrade(&weak).ok().flatten(),
                Err(_) => None,
            }
        };
        if let Some(cloned) = cloned {
            if let Err(refused) = self.senders.push(cloned) {
                self.recorder.drop_sender(refused.value);
            }
        }
    }

    fn clone_receiver(&mut self) {
        let Some(rx) = self.receiver else {
            return;
        };
        if let Ok(cloned) = self.recorder.clone_receiver(rx) {
            if let Err(refused) = self.receivers.push(cloned) {
                self.recorder.drop_receiver(refused.value);
            }
        }
    }

    fn drop_sender(&mut self) {
        if let Some(sender) = self.senders.pop() {
            self.recorder.drop_sender(sender);
        }
    }

    fn drop_receiver(&mut self) {
        if let Some(receiver) = self.receivers.pop() {
            self.recorder.drop_receiver(receiver);
        }
    }

    fn poll_future(&mut self, task: &MockTask, sends: bool) {
        if sends {
            self.poll_send(task);
            if self.random.below(2) == 0 {
                self.send = None;
            }
        } else {
            self.poll_receive(task);
            if self.random.below(2) == 0 {
                self.receive = None;
            }
        }
    }

    fn poll_send(&mut self, task: &MockTask) {
        let message = self.next_message();
        let Some(tx) = self.sender else {
            return;
        };
        let mut send = match self.send.take() {
            Some(send) => send,
            None => self.recorder.send_async(tx, message),
        };
        if task.poll(&mut send).is_pending() {
            self.send = Some(send);
        }
    }

    fn poll_receive(&mut self, task: &MockTask) {
        let Some(rx) = self.receiver else {
            return;
        };
        let mut receive = match self.receive.take() {
            Some(receive) => receive,
            None => self.recorder.recv_async(rx),
        };
        if task.poll(&mut receive).is_pending() {
            self.receive = Some(receive);
        }
    }
}

fn query_end<E: End>(recorder: &mut Recorder<u64>, end: &E, number: u64, capacity: usize) {
    match number {
        0 | 1 => ignore(recorder.len(end)),
        2 => ignore(recorder.is_empty(end)),
        3 => ignore(recorder.is_full(end)),
        4 => ignore(recorder.capacity(end)),
        5 => ignore(recorder.sender_count(end)),
        6 => ignore(recorder.receiver_count(end)),
        7 => ignore(recorder.is_disconnected(end)),
        _ => ignore(recorder.set_capacity(end, capacity)),
    }
}

fn ignore<T: Drop>(_answer: T) {}
