//! A channel drops each message and each signal of a random script once.
use crate::fixtures::is;
use crate::random_steps::RandomSteps;
use flume_core::chan::Chan;
use flume_model::step::{Reply, Step};
use std::alloc::Global;
use std::process::Abort;
use std::sync::atomic::{AtomicU64, Ordering};

#[derive(Drop)]
struct Counts {
    made: AtomicU64,
    dropped: AtomicU64,
    // Of the numbers of the values that weren't dropped.
    sum: AtomicU64,
}

// A value that counts its drop. The first one has the number 1.
struct Counted<'a> {
    number: u64,
    counts: &'a Counts,
}

impl Drop for Counted<'_> {
    fn drop(self) {
        let Self { number, counts } = self;
        counts.dropped.fetch_add(1, Ordering::SeqCst);
        counts
            .sum
            .fetch_add(0u64.wrapping_sub(number), Ordering::SeqCst);
    }
}

impl Counts {
    fn new() -> Counts {
        Counts {
            made: AtomicU64::new(0),
            dropped: AtomicU64::new(0),
            sum: AtomicU64::new(0),
        }
    }

    fn make(&self) -> Counted<'_> {
        let number = self.made.fetch_add(1, Ordering::SeqCst).wrapping_add(1);
        self.sum.fetch_add(number, Ordering::SeqCst);
        Counted {
            number,
            counts: self,
        }
    }

    fn all_dropped(&self) -> bool {
        let made = self.made.load(Ordering::SeqCst);
        let dropped = self.dropped.load(Ordering::SeqCst);
        made == dropped && self.sum.load(Ordering::SeqCst) == 0
    }
}

#[derive(Drop)]
struct CountedChannel<'a> {
    chan: Chan<Counted<'a>, Counted<'a>>,
    messages: &'a Counts,
    signals: &'a Counts,
    replaces_signals: bool,
    asks_due: bool,
    last_ticket: u64,
}

impl<'a> CountedChannel<'a> {
    fn reply(&mut self, step: &Step<u64>) -> Reply<Counted<'a>> {
        let new_signal = self.replaces_signals.then(|| self.signals.make());
        let chan = &mut self.chan;
        match *step {
            Step::TrySend(_) => chan.try_send(self.messages.make()),
            Step::Send(_) => chan.send(self.messages.make(), self.signals.make()),
            Step::PollSend(ticket) => chan.poll_send(ticket, new_signal),
            Step::WithdrawSend(ticket) => chan.withdraw_send(ticket),
            Step::TryRecv => chan.try_recv(),
            Step::Recv(kind) => chan.recv(kind, self.signals.make()),
            Step::Poll(ticket) => chan.poll(ticket, new_signal),
            Step::Withdraw(ticket) => chan.withdraw(ticket),
            Step::Drain => chan.drain(),
            Step::CloneSender => chan.clone_sender(),
            Step::CloneReceiver => chan.clone_receiver(),
            Step::DropSender => chan.drop_sender(),
            Step::DropReceiver => chan.drop_receiver(),
            Step::SetCapacity(capacity) => chan.set_capacity(capacity),
            _ => chan.len(),
        }
    }

    fn make(&mut self, step: &Step<u64>) {
        let reply = self.reply(step);
        if matches!(reply, Reply::Pending(_) | Reply::Parked(_)) {
            self.last_ticket = self.last_ticket.saturating_add(1);
        }
        if self.asks_due {
            self.chan.next_due();
        }
    }
}

const SCRIPTS: u64 = 1_000;

const STEPS: u64 = 30;

fn run_random<R: Abort>(rt: &R, alloc: Global, random_steps: &mut RandomSteps, script: u64) -> u64 {
    let (messages, signals) = (Counts::new(), Counts::new());
    let mut channel = CountedChannel {
        chan: Chan::new(alloc, random_steps.capacity()),
        messages: &messages,
        signals: &signals,
        replaces_signals: script & 1 == 0,
        asks_due: script & 2 == 0,
        last_ticket: 0,
    };
    for _ in 0..STEPS {
        random_steps.last_ticket = channel.last_ticket;
        channel.make(&random_steps.step());
    }
    drop(channel);
    let dropped = (messages.all_dropped(), signals.all_dropped());
    is(rt, "a random script", dropped, (true, true));
    signals.made.load(Ordering::SeqCst)
}

#[test]
fn a_random_script_drops_each_message_and_signal_once(rt: HostRuntime) {
    let mut random_steps = RandomSteps::from_seed(20_261_123);
    let mut made = 0u64;
    for script in 0..SCRIPTS {
        made = made.saturating_add(run_random(&rt, rt.alloc(), &mut random_steps, script));
    }
    assert!(rt; made >= 5_000, "{made} signals were made");
}
