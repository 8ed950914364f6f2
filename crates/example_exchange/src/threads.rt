//! What a thread does with an end of a channel, and with a party of its own.
ghost use Rattle.std.specs.Prelude.{[], IfOk};
ghost use Rattle.flume.specs.Callers.{HasMadeCalls};
ghost use Rattle.flume_laws.specs.Forwards.{HasForwarded};
ghost use Rattle.example_exchange.specs.Halving.{half};

use flume::traced::{ChannelName, ChannelParty, TracedReceiver, TracedSender};
use flume::{RecvError, Waits};
use std::alloc::Global;
use std::io;

/// What a thread received, and by which end and party.
#[derive(Drop)]
pub struct Received<R: Waits, J: ChannelName> {
    pub rx: TracedReceiver<u64, R, J>,
    pub me: ChannelParty<u64, J>,
    pub items: Vec<u64>,
}

/// A thread that halves what comes from one channel into another, by its ends and parties.
#[derive(Drop)]
pub struct Halver<R: Waits, J: ChannelName, K: ChannelName> {
    pub rt: R,
    pub rx: TracedReceiver<u64, R, J>,
    pub tx: TracedSender<u64, R, K>,
    pub reader: ChannelParty<u64, J>,
    pub writer: ChannelParty<u64, K>,
}

/// What it ended with. Its sender is dropped.
#[derive(Drop)]
pub struct Halved<R: Waits, J: ChannelName, K: ChannelName> {
    pub rx: TracedReceiver<u64, R, J>,
    pub reader: ChannelParty<u64, J>,
    pub writer: ChannelParty<u64, K>,
}

/// Sends each item, and drops the sender.
#[tactic(auto, using(flume_laws::proofs::LoopLemmas::call_steps))]
pub fn send_all<R: Waits, J: ChannelName>(
    tx: TracedSender<u64, R, J>,
    mut me: ChannelParty<u64, J>,
    items: &[u64],
) -> io::Result<ChannelParty<u64, J>>
    ensures sent { IfOk result (λ party. HasMadeCalls me party items.now []) }
{
    for item in items {
        tx.send(&mut me, *item)?;
    }
    Ok(me)
}

/// Receives until all senders are dropped, and nothing is left.
#[tactic(auto, using(flume_laws::proofs::LoopLemmas::call_steps))]
pub fn receive_all<R: Waits, J: ChannelName>(
    alloc: Global,
    rx: TracedReceiver<u64, R, J>,
    me: ChannelParty<u64, J>,
) -> io::Result<Received<R, J>>
    ensures got { IfOk result (λ r. HasMadeCalls me r.me [] r.items.items) }
{
    let mut items = Vec::new(alloc);
    let mut messages = rx.iter(me);
    while let Some(item) = messages.next() {
        items.push(item)?;
    }
    messages.ended()?;
    let me = messages.into_party();
    Ok(Received { rx, me, items })
}

/// Sends half of each number that it receives, until all senders of those are dropped.
#[tactic(auto, using(flume_laws::proofs::ForwardLemmas::forward_steps))]
pub fn halve_all<R: Waits, J: ChannelName, K: ChannelName>(
    halver: Halver<R, J, K>,
) -> io::Result<Halved<R, J, K>>
    ensures halved { IfOk result (λ r. HasForwarded half halver.reader r.reader
        halver.writer r.writer) }
{
    let Halver {
        rt,
        rx,
        tx,
        mut reader,
        mut writer,
    } = halver;
    for _ in rt.forever() {
        match rx.recv(&mut reader) {
            Ok(number) => tx.send(&mut writer, number / 2)?,
            Err(RecvError::Disconnected) => return Ok(Halved { rx, reader, writer }),
            Err(error) => return Err(error.into()),
        }
    }
    unreachable!()
}
