//! Readings of two sensors become one stream, up to a stop message. The high ones are forwarded as
//! alarms. As a chain this would be `select`, `take_until`, `filter`, `map` and `forward`. Here it
//! is two types with a `poll`, `Merged` and `Relay`, whose functions the prover reads one by one.
#![tactic(auto)]

use flume::polled::{RecvStream, SendSink};
use flume::{Receiver, Runtime, Sender, Waits};
use futures::executor::block_on;
use futures::task::{Context, Poll};
use futures::{Future, Sink, Stream, ready};
use std::mem::swap;
use std::random::RandomSource;
use std::{io, thread};

const HIGH: u64 = 70;

fn main(rt: HostRuntime) -> io::Result<()> {
    let (inside, from_inside) = flume::on(rt).bounded(2)?;
    let (outside, from_outside) = flume::on(rt).bounded(2)?;
    let (stop, stopped) = flume::on(rt).bounded(1)?;
    let (alarm, alarms) = flume::on(rt).bounded(1)?;
    let sensors = (from_inside, from_outside);
    let relay = thread::spawn(&rt, move || run(&rt, sensors, stopped, alarm))?;
    let (one, other) = (inside.clone()?, outside.clone()?);
    let first = thread::spawn(&rt, move || measure(&one, 61))?;
    let second = thread::spawn(&rt, move || measure(&other, 66))?;
    let mut degrees = 0u64;
    let mut alarms = alarms.iter();
    // Of 61 to 75 five are above 70, of 66 to 80 ten.
    for alarm in alarms.by_ref().take(15) {
        degrees = degrees.saturating_add(alarm);
    }
    let told = stop.send(());
    // The streams are still open, since `inside` and `outside` are here: the relay was stopped.
    let forwarded = relay.join(&rt)?;
    alarms.ended()?;
    told?;
    first.join(&rt)?;
    second.join(&rt)?;
    drop((inside, outside));
    println!(rt; "{forwarded} alarms, {degrees} degrees too high in all")
}

/// Sends 15 readings, from this one on.
fn measure<R: Waits>(readings: &Sender<u64, R>, from: u64) -> io::Result<()> {
    for more in 0..15 {
        readings.send(from.saturating_add(more))?;
    }
    Ok(())
}

/// Runs the relay on this thread, and returns how many alarms it forwarded.
fn run<R: Runtime + RandomSource>(
    rt: &R,
    sensors: (Receiver<u64, R>, Receiver<u64, R>),
    stop: Receiver<(), R>,
    alarms: Sender<u64, R>,
) -> io::Result<u64> {
    let (first, second) = sensors;
    let relay = Relay {
        readings: Merged {
            first: first.into_stream(),
            second: second.into_stream(),
        },
        stop: stop.into_stream(),
        alarms: alarms.into_sink(),
        forwarded: 0,
    };
    // The outer error is the executor's, the inner one the task's.
    block_on(rt, relay)?
}

/// The messages of two streams, which take turns. It ends once both have ended, or one has no
/// memory to wait.
#[derive(Drop)]
struct Merged<'a, R: Waits> {
    first: RecvStream<'a, u64, R>,
    second: RecvStream<'a, u64, R>,
}

impl<R: Waits> Merged<'_, R> {
    /// Why both ended: all senders have been dropped, or there was no memory to wait.
    fn ended(&self) -> io::Result<()> {
        self.first.ended()?;
        Ok(self.second.ended()?)
    }
}

impl<R: Waits> Stream for Merged<'_, R> {
    type Item = u64;

    fn poll_next(&mut self, cx: &mut Context<'_>) -> Poll<Option<u64>> {
        // So the one that was second is first now.
        swap(&mut self.first, &mut self.second);
        let polled = self.first.poll_next(cx);
        if let Poll::Ready(Some(message)) = polled {
            return Poll::Ready(Some(message));
        }
        if self.first.fault() {
            return Poll::Ready(None);
        }
        match self.second.poll_next(cx) {
            // The second one has ended, and the first one has, or has nothing yet.
            Poll::Ready(None) => polled,
            next => next,
        }
    }
}

#[derive(Drop)]
struct Relay<'a, R: Waits> {
    readings: Merged<'a, R>,
    stop: RecvStream<'a, (), R>,
    alarms: SendSink<'a, u64, R>,
    forwarded: u64,
}

impl<R: Waits> Relay<'_, R> {
    /// How many were forwarded, unless the stream of stop messages had no memory to wait.
    fn stopped(&self) -> io::Result<u64> {
        self.stop.ended()?;
        Ok(self.forwarded)
    }
}

impl<R: Waits> Future for Relay<'_, R> {
    type Output = io::Result<u64>;

    fn poll(&mut self, cx: &mut Context<'_>) -> Poll<io::Result<u64>> {
        // So no reading is taken before the previous alarm was sent.
        if let Err(error) = ready!(self.alarms.poll_ready(cx)) {
            return Poll::Ready(Err(error.into()));
        }
        if self.stop.poll_next(cx).is_ready() {
            return Poll::Ready(self.stopped());
        }
        let Some(reading) = ready!(self.readings.poll_next(cx)) else {
            return Poll::Ready(self.readings.ended().map(|_| self.forwarded));
        };
        if let Some(degrees) = reading.checked_sub(HIGH).filter(|it| *it > 0) {
            if let Err(error) = self.alarms.start_send(degrees) {
                return Poll::Ready(Err(error.into()));
            }
            self.forwarded = self.forwarded.saturating_add(1);
        }
        // There is more to do at once: the executor is to poll again.
        cx.yield_now()
    }
}
