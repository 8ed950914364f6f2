//! A bus of events: each subscriber has a bounded channel of its own, and the bus waits for none.
#![tactic(auto)]

use flume::error::NoMemory;
use flume::{Receiver, Runtime, Sender, TrySendError, Waits};
use std::io;

#[derive(Drop)]
enum Notice {
    Event(u64),
    /// This many events came while the channel was full.
    Missed(u64),
}

#[derive(Drop)]
struct Subscriber<R: Waits> {
    notices: Sender<Notice, R>,
    // How many missed events no notice has counted yet.
    missed: u64,
    is_disconnected: bool,
}

impl<R: Waits> Subscriber<R> {
    /// Sends it an event, after a count of those that it missed.
    fn notify(&mut self, event: u64) -> Result<(), NoMemory> {
        if self.missed > 0 && self.offer(Notice::Missed(self.missed))? {
            self.missed = 0;
        }
        if self.missed > 0 || !self.offer(Notice::Event(event))? {
            self.missed = self.missed.saturating_add(1);
        }
        Ok(())
    }

    /// Whether the notice was taken in. A full channel delays no other subscriber.
    fn offer(&mut self, notice: Notice) -> Result<bool, NoMemory> {
        match self.notices.try_send(notice) {
            Ok(()) => Ok(true),
            Err(TrySendError::Full(_)) => Ok(false),
            Err(TrySendError::Disconnected(_)) => {
                self.is_disconnected = true;
                Ok(false)
            }
            Err(TrySendError::NoMemory(_)) => Err(NoMemory),
        }
    }
}

#[derive(Drop)]
struct Bus<R: Waits> {
    rt: R,
    subscribers: Vec<Subscriber<R>>,
}

impl<R: Runtime> Bus<R> {
    /// A new subscriber, which may be behind by this many notices, and leaves by dropping its end.
    fn subscribe(&mut self, capacity: usize) -> io::Result<Receiver<Notice, R>> {
        let (notices, received) = flume::on(self.rt).bounded(capacity)?;
        self.subscribers.push(Subscriber {
            notices,
            missed: 0,
            is_disconnected: false,
        })?;
        Ok(received)
    }

    fn publish(&mut self, event: u64) -> io::Result<()> {
        for subscriber in &mut self.subscribers {
            subscriber.notify(event)?;
        }
        self.subscribers
            .retain(|subscriber| !subscriber.is_disconnected);
        Ok(())
    }
}

fn main(rt: HostRuntime) -> io::Result<()> {
    let subscribers = Vec::new(rt.alloc());
    let mut bus = Bus { rt, subscribers };
    // This one reads after each event.
    let quick = bus.subscribe(1)?;
    // This one reads seldom: it gets the first two events of a longer row, and a count of the rest.
    let slow = bus.subscribe(2)?;
    for event in 1..=5 {
        bus.publish(event)?;
        read(&rt, "quick", &quick)?;
    }
    read(&rt, "slow", &slow)?;
    bus.publish(6)?;
    read(&rt, "slow", &slow)?;
    // Its channel closes. The bus notices when it publishes.
    drop(quick);
    bus.publish(7)?;
    println!(rt; "subscribers: {}", bus.subscribers.len())?;
    let late = bus.subscribe(1)?;
    bus.publish(8)?;
    // What is queued is still read.
    drop(bus);
    read(&rt, "slow", &slow)?;
    read(&rt, "late", &late)
}

fn read<R: Runtime + Print>(rt: &R, name: &str, notices: &Receiver<Notice, R>) -> io::Result<()> {
    for notice in notices.try_iter() {
        match notice {
            Notice::Event(event) => println!(rt; "{name}: event {event}")?,
            Notice::Missed(count) => println!(rt; "{name}: missed {count}")?,
        }
    }
    Ok(())
}
