//! A pool: two threads take numbers from one channel, and send the half of each into another.
ghost use Rattle.std.specs.Prelude.{◌≡◌, [], IfOk, IsPermutation};
ghost use Rattle.flume.specs.Callers.{HasMadeCalls};
ghost use Rattle.flume_laws.specs.Forwards.{HasForwarded};
ghost use Rattle.example_exchange.specs.Halving.{half, halves};

use crate::threads::{Halved, Halver, halve_all, receive_all, send_all};
use flume::Runtime;
use flume::traced::{ChannelName, ChannelParty, TracedSender, UnopenedChannel};
use std::alloc::Global;
use std::io;
use std::io::ErrorKind;
use std::marker::Brand;
use std::thread::join;

/// Two threads halve what comes, until nothing more does.
fn halve_both<R, J, K>(
    rt: R,
    first: Halver<R, J, K>,
    second: Halver<R, J, K>,
) -> io::Result<(Halved<R, J, K>, Halved<R, J, K>)>
where
    R: Runtime,
    J: ChannelName + Send + Sync,
    K: ChannelName + Send + Sync,
    ensures halved { IfOk result (λ r.
        HasForwarded half first.reader r.0.reader first.writer r.0.writer
        × HasForwarded half second.reader r.1.reader second.writer r.1.writer) }
{
    let (a, b) = join(&rt, || halve_all(first), || halve_all(second));
    Ok((a?, b?))
}

/// What a pool of two ended with: the party of who sent the jobs, and its two threads.
#[derive(Drop)]
struct Ran<R: Runtime, J: ChannelName, K: ChannelName> {
    sender: ChannelParty<u64, J>,
    first: Halved<R, J, K>,
    second: Halved<R, J, K>,
}

/// One thread sends the numbers, two halve them.
fn run<R, J, K>(
    rt: R,
    tx: TracedSender<u64, R, J>,
    sender: ChannelParty<u64, J>,
    first: Halver<R, J, K>,
    second: Halver<R, J, K>,
    numbers: &[u64],
) -> io::Result<Ran<R, J, K>>
where
    R: Runtime,
    J: ChannelName + Send + Sync,
    K: ChannelName + Send + Sync,
    ensures sent { IfOk result (λ r. HasMadeCalls sender r.sender numbers.now []) }
    ensures first { IfOk result (λ r.
        HasForwarded half first.reader r.first.reader first.writer r.first.writer) }
    ensures second { IfOk result (λ r.
        HasForwarded half second.reader r.second.reader second.writer r.second.writer) }
{
    let (sent, halved) = join(
        &rt,
        || send_all(tx, sender, numbers),
        || halve_both(rt, first, second),
    );
    let sender = sent?;
    let (first, second) = halved?;
    Ok(Ran {
        sender,
        first,
        second,
    })
}

/// The halves of the numbers, by a pool over these two channels.
pub fn pool_named<R, J, K>(
    rt: R,
    alloc: Global,
    jobs: UnopenedChannel,
    results: UnopenedChannel,
    numbers: &[u64],
) -> io::Result<Vec<u64>>
where
    R: Runtime,
    J: ChannelName + Send + Sync,
    K: ChannelName + Send + Sync,
    requires named { (jobs ≡ J.identity) × (results ≡ K.identity) }
    requires parts { (jobs.parts ≡ 3) × (results.parts ≡ 3) }
    ensures halved { IfOk result (λ v. IsPermutation (halves numbers.now) v.items) }
{
    let (tx, rx, mut reader) = flume::on(rt).traced::<u64, J>(jobs)?;
    let (to, from, mut collector) = flume::on(rt).traced::<u64, K>(results)?;
    let sender = reader.split_off(1);
    let first = Halver {
        rt,
        rx: rx.clone()?,
        tx: to.clone()?,
        reader: reader.split_off(1),
        writer: collector.split_off(1),
    };
    let second = Halver {
        rt,
        rx,
        tx: to,
        reader,
        writer: collector.split_off(1),
    };
    let Ran {
        sender,
        first,
        mut second,
    } = run(rt, tx, sender, first, second, numbers)?;
    let mut collected = receive_all(alloc, from, collector)?;
    second.reader.merge(sender);
    second.reader.merge(first.reader);
    collected.me.merge(second.writer);
    collected.me.merge(first.writer);
    let Some(0) = second.rx.settle(&mut second.reader) else {
        return Err(io::Error::new(ErrorKind::Other, "messages are left"));
    };
    let Some(0) = collected.rx.settle(&mut collected.me) else {
        return Err(io::Error::new(ErrorKind::Other, "messages are left"));
    };
    Ok(collected.items)
}

/// Two threads take numbers from one channel, and send the half of each into another. What comes
/// out of that are the halves of all numbers, each once, in whichever order.
pub fn pool<R: Runtime>(rt: R, alloc: Global, numbers: &[u64]) -> io::Result<Vec<u64>>
    ensures halved { IfOk result (λ v. IsPermutation (halves numbers.now) v.items) }
{
    let jobs = UnopenedChannel::bounded(4, 3);
    let results = UnopenedChannel::unbounded(3);
    pool_named::<R, Brand, Brand>(rt, alloc, jobs, results, numbers)
}
