//! Two threads in a row: one sends numbers, one halves them into a second channel.
ghost use Rattle.std.specs.Prelude.{◌≡◌, [], IfOk};
ghost use Rattle.flume.specs.Callers.{HasMadeCalls};
ghost use Rattle.flume_laws.specs.Forwards.{HasForwarded};
ghost use Rattle.example_exchange.specs.Halving.{half, halves};

use crate::threads::{Halved, Halver, halve_all, receive_all, send_all};
use flume::Runtime;
use flume::traced::{ChannelName, ChannelParty, TracedSender, UnopenedChannel};
use std::alloc::Global;
use std::io;
use std::io::ErrorKind;
use std::marker::Brand;
use std::thread::join;

/// One thread sends the numbers, the next one sends the half of each.
fn send_halves<R, J, K>(
    rt: R,
    tx: TracedSender<u64, R, J>,
    sender: ChannelParty<u64, J>,
    halver: Halver<R, J, K>,
    numbers: &[u64],
) -> io::Result<(ChannelParty<u64, J>, Halved<R, J, K>)>
where
    R: Runtime,
    J: ChannelName + Send + Sync,
    K: ChannelName + Send + Sync,
    ensures sent { IfOk result (λ r. HasMadeCalls sender r.0 numbers.now []
        × HasForwarded half halver.reader r.1.reader halver.writer r.1.writer) }
{
    let (sent, halved) = join(&rt, || send_all(tx, sender, numbers), || halve_all(halver));
    Ok((sent?, halved?))
}

/// The halves of the numbers, over these two channels.
pub fn pipeline_named<R, J, K>(
    rt: R,
    alloc: Global,
    first: UnopenedChannel,
    second: UnopenedChannel,
    numbers: &[u64],
) -> io::Result<Vec<u64>>
where
    R: Runtime,
    J: ChannelName + Send + Sync,
    K: ChannelName + Send + Sync,
    requires named { (first ≡ J.identity) × (second ≡ K.identity) }
    requires parts { (first.parts ≡ 2) × (second.parts ≡ 2) }
    ensures halved { IfOk result (λ v. v.items ≡ halves numbers.now) }
{
    let (tx, rx, mut reader) = flume::on(rt).traced::<u64, J>(first)?;
    let (to, from, mut collector) = flume::on(rt).traced::<u64, K>(second)?;
    let sender = reader.split_off(1);
    let writer = collector.split_off(1);
    let halver = Halver {
        rt,
        rx,
        tx: to,
        reader,
        writer,
    };
    let (sent, mut halved) = send_halves(rt, tx, sender, halver, numbers)?;
    let mut collected = receive_all(alloc, from, collector)?;
    halved.reader.merge(sent);
    collected.me.merge(halved.writer);
    let Some(0) = halved.rx.settle(&mut halved.reader) else {
        return Err(io::Error::new(ErrorKind::Other, "messages are left"));
    };
    let Some(0) = collected.rx.settle(&mut collected.me) else {
        return Err(io::Error::new(ErrorKind::Other, "messages are left"));
    };
    Ok(collected.items)
}

/// Two threads in a row, with a channel between them, and one behind the last. What comes out of
/// that is the half of each number that goes into the other, in their order.
pub fn pipeline<R: Runtime>(rt: R, alloc: Global, numbers: &[u64]) -> io::Result<Vec<u64>>
    ensures halved { IfOk result (λ v. v.items ≡ halves numbers.now) }
{
    let first = UnopenedChannel::bounded(4, 2);
    let second = UnopenedChannel::unbounded(2);
    pipeline_named::<R, Brand, Brand>(rt, alloc, first, second, numbers)
}
