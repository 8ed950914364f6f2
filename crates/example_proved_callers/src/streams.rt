//! A chain of adapters over a stream by reference. Afterwards the stream says why it ended.

use flume::{Receiver, Runtime, Sender};
use futures::StreamExt;
use futures::executor::block_on;
use futures::future::ready;
use std::io;
use std::random::RandomSource;

/// Doubles the numbers above 3, and sends them on until all senders have been dropped.
pub fn double_large<R>(rt: &R, numbers: Receiver<u64, R>, answers: Sender<u64, R>) -> io::Result<()>
where
    R: Runtime + RandomSource,
{
    let mut numbers = numbers.into_stream();
    let doubles = numbers
        .by_ref()
        .filter(|number| ready(*number > 3))
        .map(|number| Ok(number.saturating_mul(2)));
    block_on(rt, doubles.forward(answers.into_sink()))??;
    Ok(numbers.ended()?)
}
