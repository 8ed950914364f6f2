//! Two threads send a slice each. When both are done, a third slice is sent, and comes behind.
//!
//! Who takes in a party knows that its calls have been made. So what it sends then comes, in the
//! one line of messages, after all that the other sent. Meanwhile another thread receives.
ghost use Rattle.std.specs.Prelude.{◌≡◌, ℕ, List, [], ◌++◌, IfOk};
ghost use Rattle.flume_laws.specs.Interleavings.{Interleaving};
ghost use Rattle.flume.specs.Callers.{HasMadeCalls};
ghost use Rattle.example_transfers.specs.Phases.{HasSentInPhases};

use flume::traced::{ChannelName, ChannelParty, TracedReceiver, TracedSender, UnopenedChannel};
use flume::{Runtime, Waits};
use std::alloc::Global;
use std::io;
use std::io::ErrorKind;
use std::marker::Brand;
use std::thread::join;

/// What a thread received, and by which end and party.
#[derive(Drop)]
pub struct Received<R: Waits, J: ChannelName> {
    pub rx: TracedReceiver<u64, R, J>,
    pub me: ChannelParty<u64, J>,
    pub items: Vec<u64>,
}

/// Sends each item, and drops the sender.
pub fn send_all<R: Waits, J: ChannelName>(
    tx: TracedSender<u64, R, J>,
    mut me: ChannelParty<u64, J>,
    items: &[u64],
) -> io::Result<ChannelParty<u64, J>>
    ensures sent { IfOk result (λ party. HasMadeCalls me party items.now []) }
{
    for item in items {
        tx.send(&mut me, *item)?;
    }
    Ok(me)
}

/// Receives until all senders are dropped, and nothing is left.
#[tactic(auto, using(flume_laws::proofs::LoopLemmas::call_steps))]
pub fn receive_all<R: Waits, J: ChannelName>(
    alloc: Global,
    rx: TracedReceiver<u64, R, J>,
    me: ChannelParty<u64, J>,
) -> io::Result<Received<R, J>>
    ensures got { IfOk result (λ r. HasMadeCalls me r.me [] r.items.items) }
{
    let mut items = Vec::new(alloc);
    let mut messages = rx.iter(me);
    while let Some(item) = messages.next() {
        items.push(item)?;
    }
    messages.ended()?;
    let me = messages.into_party();
    Ok(Received { rx, me, items })
}

/// Two threads send a slice each, until both are done.
fn send_both<R: Runtime, J: ChannelName + Send + Sync>(
    rt: R,
    tx: TracedSender<u64, R, J>,
    parties: (ChannelParty<u64, J>, ChannelParty<u64, J>),
    first: &[u64],
    second: &[u64],
) -> io::Result<(ChannelParty<u64, J>, ChannelParty<u64, J>)>
    ensures first { IfOk result (λ r. HasMadeCalls parties.0 r.0 first.now []) }
    ensures second { IfOk result (λ r. HasMadeCalls parties.1 r.1 second.now []) }
{
    let (a, b) = parties;
    let other = tx.clone()?;
    let (a, b) = join(
        &rt,
        || send_all(tx, a, first),
        || send_all(other, b, second),
    );
    Ok((a?, b?))
}

/// Two threads send a slice each. When both are done, the third slice is sent.
fn send_in_phases<R: Runtime, J: ChannelName + Send + Sync>(
    rt: R,
    tx: TracedSender<u64, R, J>,
    mut me: ChannelParty<u64, J>,
    parties: (ChannelParty<u64, J>, ChannelParty<u64, J>),
    first: &[u64],
    second: &[u64],
    third: &[u64],
) -> io::Result<ChannelParty<u64, J>>
    ensures sent { IfOk result (λ party. HasSentInPhases me party parties
        first.now second.now third.now) }
{
    let (a, b) = send_both(rt, tx.clone()?, parties, first, second)?;
    me.merge(a);
    me.merge(b);
    send_all(tx, me, third)
}

/// What is received of three slices that are sent so, over a channel of this name.
pub fn phases_named<R: Runtime, J: ChannelName + Send + Sync>(
    rt: R,
    alloc: Global,
    channel: UnopenedChannel,
    first: &[u64],
    second: &[u64],
    third: &[u64],
) -> io::Result<Vec<u64>>
    requires named { channel ≡ J.identity }
    requires parts { channel.parts ≡ 4 }
    ensures phases { IfOk result (λ items. (early : List ℕ)
        × Interleaving first.now second.now early × (items.items ≡ early ++ third.now)) }
{
    let (tx, rx, mut all) = flume::on(rt).traced::<u64, J>(channel)?;
    let parties = (all.split_off(1), all.split_off(1));
    let receiver = all.split_off(1);
    let (sent, got) = join(
        &rt,
        || send_in_phases(rt, tx, all, parties, first, second, third),
        || receive_all(alloc, rx, receiver),
    );
    let mut all = sent?;
    let got = got?;
    all.merge(got.me);
    let Some(0) = got.rx.settle(&mut all) else {
        return Err(io::Error::new(ErrorKind::Other, "messages are left"));
    };
    Ok(got.items)
}

/// Two threads send a slice each, and when both are done, a third slice is sent. Another thread
/// receives all: first the two slices, each in its order, and then the third one.
pub fn phases<R: Runtime>(
    rt: R,
    alloc: Global,
    first: &[u64],
    second: &[u64],
    third: &[u64],
) -> io::Result<Vec<u64>>
    ensures phases { IfOk result (λ items. (early : List ℕ)
        × Interleaving first.now second.now early × (items.items ≡ early ++ third.now)) }
{
    let channel = UnopenedChannel::bounded(2, 4);
    phases_named::<R, Brand>(rt, alloc, channel, first, second, third)
}
