//! Two threads send through one channel, and two others receive.
ghost use Rattle.std.specs.Prelude.{◌≡◌, ℕ, List, [], ◌∷◌, IfOk};
ghost use Rattle.flume_laws.specs.Interleavings.{Interleaving};
ghost use Rattle.flume.specs.Callers.{HasMadeCalls};
ghost use Rattle.flume_laws.specs.Together.{AreRouted};

use crate::threads::{Received, receive_all, send_all};
use flume::Runtime;
use flume::traced::{ChannelName, ChannelParty, TracedReceiver, TracedSender, UnopenedChannel};
use std::alloc::Global;
use std::io;
use std::io::ErrorKind;
use std::marker::Brand;
use std::thread::join;

/// Two threads send a slice each, until both are done.
fn send_both<J: ChannelName + Send + Sync, R: Runtime>(
    rt: R,
    tx: TracedSender<u64, R, J>,
    parties: (ChannelParty<u64, J>, ChannelParty<u64, J>),
    first: &[u64],
    second: &[u64],
) -> io::Result<(ChannelParty<u64, J>, ChannelParty<u64, J>)>
    ensures sent { IfOk result (λ r. HasMadeCalls parties.0 r.0 first.now []
        × HasMadeCalls parties.1 r.1 second.now []) }
{
    let (a, b) = parties;
    let other = tx.clone()?;
    let (a, b) = join(
        &rt,
        || send_all(tx, a, first),
        || send_all(other, b, second),
    );
    Ok((a?, b?))
}

/// Two threads receive, until nothing more comes.
fn receive_both<J: ChannelName + Send + Sync, R: Runtime>(
    rt: R,
    alloc: Global,
    rx: TracedReceiver<u64, R, J>,
    parties: (ChannelParty<u64, J>, ChannelParty<u64, J>),
) -> io::Result<(Received<R, J>, Received<R, J>)>
    ensures got { IfOk result (λ r. HasMadeCalls parties.0 r.0.me [] r.0.items.items
        × HasMadeCalls parties.1 r.1.me [] r.1.items.items) }
{
    let (a, b) = parties;
    let other = rx.clone()?;
    let (a, b) = join(
        &rt,
        || receive_all(alloc, rx, a),
        || receive_all(alloc, other, b),
    );
    Ok((a?, b?))
}

/// What two threads send and two others receive, over a channel of this name.
pub fn exchange_named<J: ChannelName + Send + Sync, R: Runtime>(
    rt: R,
    alloc: Global,
    channel: UnopenedChannel,
    first: &[u64],
    second: &[u64],
) -> io::Result<(Vec<u64>, Vec<u64>)>
    requires named { channel ≡ J.identity }
    requires parts { channel.parts ≡ 4 }
    ensures exchanged { IfOk result (λ r. (line : List ℕ)
        × Interleaving first.now second.now line × Interleaving r.0.items r.1.items line) }
    ensures routed { IfOk result (λ r. AreRouted (first.now ∷ second.now ∷ [])
        (r.0.items ∷ r.1.items ∷ [])) }
{
    let (tx, rx, mut rest) = flume::on(rt).traced::<u64, J>(channel)?;
    let senders = (rest.split_off(1), rest.split_off(1));
    let right = rest.split_off(1);
    let receivers = (rest, right);
    let (sent, got) = join(
        &rt,
        || send_both(rt, tx, senders, first, second),
        || receive_both(rt, alloc, rx, receivers),
    );
    let (a, b) = sent?;
    let (mut left, right) = got?;
    left.me.merge(a);
    left.me.merge(b);
    left.me.merge(right.me);
    let Some(0) = left.rx.settle(&mut left.me) else {
        return Err(io::Error::new(ErrorKind::Other, "messages are left"));
    };
    Ok((left.items, right.items))
}

/// Two threads send a slice each through one channel, and two others receive. All is received,
/// once, and in an order that keeps both slices' and both receivers'. What each receiver got can be
/// divided by the slice that it came from, in the order of that slice.
pub fn exchange<R: Runtime>(
    rt: R,
    alloc: Global,
    first: &[u64],
    second: &[u64],
) -> io::Result<(Vec<u64>, Vec<u64>)>
    ensures exchanged { IfOk result (λ r. (line : List ℕ)
        × Interleaving first.now second.now line × Interleaving r.0.items r.1.items line) }
    ensures routed { IfOk result (λ r. AreRouted (first.now ∷ second.now ∷ [])
        (r.0.items ∷ r.1.items ∷ [])) }
{
    let channel = UnopenedChannel::bounded(4, 4);
    exchange_named::<Brand, R>(rt, alloc, channel, first, second)
}
