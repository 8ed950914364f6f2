//! A thread sends numbers, a task squares them, another one doubles the squares, and `main` reads
//! those. The first task is a type with a `poll`, the second a chain from a stream to a sink.
#![tactic(auto)]

use flume::polled::{RecvStream, SendSink};
use flume::{Receiver, Runtime, Sender, Waits};
use futures::executor::block_on;
use futures::task::{Context, Poll};
use futures::{Future, Sink, Stream, StreamExt, ready};
use std::random::RandomSource;
use std::{io, thread};

fn main(rt: HostRuntime) -> io::Result<()> {
    // Of capacity 2: the thread may be ahead of the task by two numbers, and then waits for it.
    let (give, numbers) = flume::on(rt).bounded(2)?;
    let (square, squares) = flume::on(rt).bounded(1)?;
    let (answer, answers) = flume::on(rt).bounded(1)?;
    let feeder = thread::spawn(&rt, move || feed(&give))?;
    let first = thread::spawn(&rt, move || run(&rt, numbers, square))?;
    let second = thread::spawn(&rt, move || double(&rt, squares, answer))?;
    let mut answers = answers.iter();
    for answer in answers.by_ref() {
        println!(rt; "{answer}")?;
    }
    answers.ended()?;
    // The error of the last that failed says why; those before it only say that no one received.
    second.join(&rt)?;
    first.join(&rt)?;
    feeder.join(&rt)
}

/// Sends the numbers from 1 to 10. Then the only sender is dropped, and the task's stream ends.
fn feed<R: Waits>(numbers: &Sender<u64, R>) -> io::Result<()> {
    for number in 1..=10 {
        numbers.send(number)?;
    }
    Ok(())
}

/// Runs the task on this thread. It owns its ends, so both channels close as it is dropped.
fn run<R>(rt: &R, numbers: Receiver<u64, R>, answers: Sender<u64, R>) -> io::Result<()>
where
    R: Runtime + RandomSource,
{
    let numbers = numbers.into_stream();
    let answers = answers.into_sink();
    // The outer error is the executor's, the inner one the task's.
    block_on(rt, Squares { numbers, answers })?
}

/// Runs a chain on this thread. It ends without an error also if its stream had no memory to wait.
fn double<R>(rt: &R, numbers: Receiver<u64, R>, answers: Sender<u64, R>) -> io::Result<()>
where
    R: Runtime + RandomSource,
{
    let doubles = numbers
        .into_stream()
        .map(|number| Ok(number.saturating_mul(2)));
    block_on(rt, doubles.forward(answers.into_sink()))??;
    Ok(())
}

#[derive(Drop)]
struct Squares<'a, R: Waits> {
    numbers: RecvStream<'a, u64, R>,
    answers: SendSink<'a, u64, R>,
}

impl<R: Waits> Future for Squares<'_, R> {
    type Output = io::Result<()>;

    fn poll(&mut self, cx: &mut Context<'_>) -> Poll<io::Result<()>> {
        // So no number is taken before the answer to the last one was sent.
        if let Err(error) = ready!(self.answers.poll_ready(cx)) {
            return Poll::Ready(Err(error.into()));
        }
        let Some(number) = ready!(self.numbers.poll_next(cx)) else {
            return Poll::Ready(self.ended());
        };
        if let Err(error) = self.answers.start_send(number.saturating_mul(number)) {
            return Poll::Ready(Err(error.into()));
        }
        // There is more to do at once: the executor is to poll again.
        cx.yield_now()
    }
}

impl<R: Waits> Squares<'_, R> {
    /// Why the stream ended: all senders have been dropped, or there was no memory to wait.
    fn ended(&self) -> io::Result<()> {
        Ok(self.numbers.ended()?)
    }
}
