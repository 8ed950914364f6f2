//! One thread sends until another one stops. In the end it is ahead by the capacity, at most.
//!
//! So messages are left. A law says that they were sent last, and how many there may be. A send
//! waits for room, and goes on if there is some, or gives up after a time.
ghost use Rattle.std.specs.Prelude.{◌≡◌, ◌≤◌, ◌++◌, ℕ, List, [], length, Some, IfOk};
ghost use Rattle.flume.specs.Callers.{HasMadeCalls};
ghost use Rattle.flume_laws.specs.Offered.{WereOffered};

use flume::traced::{ChannelName, ChannelParty, TracedReceiver, TracedSender, UnopenedChannel};
use flume::{Receiver, Runtime, SendTimeoutError, Sender, Waits};
use std::alloc::Global;
use std::io::{self, ErrorKind};
use std::marker::Brand;
use std::thread::join;
use std::time::Duration;

/// How many milliseconds a send waits for room, before it looks whether the receiver has stopped.
const PATIENCE: u64 = 5;

/// Sends 1, 2 and so on, until there is no room after `stopped` was disconnected: what was sent.
#[tactic(auto, using(flume_laws::proofs::LoopLemmas::call_steps))]
pub fn send_numbers<R: Waits, J: ChannelName>(
    rt: R,
    alloc: Global,
    tx: TracedSender<u64, R, J>,
    mut me: ChannelParty<u64, J>,
    stopped: Receiver<u64, R>,
) -> io::Result<(ChannelParty<u64, J>, Vec<u64>)>
    ensures sent { IfOk result (λ r. HasMadeCalls me r.0 r.1.items []) }
{
    let mut sent = Vec::new(alloc);
    let mut number = 1u64;
    for _ in rt.forever() {
        let is_last = stopped.is_disconnected();
        match tx.send_timeout(&mut me, number, Duration::from_millis(PATIENCE)) {
            Ok(()) => {
                sent.push(number)?;
                number = number.saturating_add(1);
            }
            Err(SendTimeoutError::Timeout(_)) => {
                if is_last {
                    return Ok((me, sent));
                }
            }
            Err(error) => return Err(error.into()),
        }
    }
    unreachable!()
}

/// Receives so many numbers, and stops: it drops the sender `stop`. Whatever the other thread does
/// meanwhile, these were offered in the channel, in this order, and didn't go back.
#[tactic(auto, using(flume_laws::proofs::LoopLemmas::call_steps))]
pub fn receive_some<R: Waits, J: ChannelName>(
    alloc: Global,
    rx: &TracedReceiver<u64, R, J>,
    mut me: ChannelParty<u64, J>,
    wanted: usize,
    stop: Sender<u64, R>,
) -> io::Result<(ChannelParty<u64, J>, Vec<u64>)>
    ensures got { IfOk result (λ r. HasMadeCalls me r.0 [] r.1.items) }
    ensures wanted { IfOk result (λ r. length r.1.items ≡ wanted) }
    ensures offered { IfOk result (λ r. WereOffered J.identity.capacity r.0.actions r.1.items) }
{
    let mut got = Vec::new(alloc);
    for _ in 0..wanted {
        got.push(rx.recv(&mut me)?)?;
    }
    rx.confirm(&mut me);
    drop(stop);
    Ok((me, got))
}

/// What is sent and what is received so, over a channel of this name.
pub fn window_named<R: Runtime, J: ChannelName + Send + Sync>(
    rt: R,
    alloc: Global,
    channel: UnopenedChannel,
    capacity: usize,
    wanted: usize,
) -> io::Result<(Vec<u64>, Vec<u64>)>
    requires named { channel ≡ J.identity }
    requires parts { channel.parts ≡ 3 }
    requires bounded { channel.capacity ≡ Some capacity }
    requires capacity { 2 ≤ capacity }
    ensures window { IfOk result (λ r. (left : List ℕ) × (r.0.items ≡ r.1.items ++ left)
        × (length left ≤ capacity)) }
    ensures wanted { IfOk result (λ r. length r.1.items ≡ wanted) }
{
    let (tx, rx, mut all) = flume::on(rt).traced::<u64, J>(channel)?;
    let (stop, stopped) = flume::on(rt).bounded(1)?;
    let (sender, receiver) = (all.split_off(1), all.split_off(1));
    let (sent, got) = join(
        &rt,
        || send_numbers(rt, alloc, tx, sender, stopped),
        || receive_some(alloc, &rx, receiver, wanted, stop),
    );
    let ((sender, sent), (receiver, got)) = (sent?, got?);
    all.merge(sender);
    all.merge(receiver);
    let Some(_) = rx.settle(&mut all) else {
        return Err(ErrorKind::Other.into());
    };
    Ok((sent, got))
}

/// One thread sends numbers into a channel of this capacity. Another one receives so many of them,
/// and stops. What was sent is what was received, and then at most as many as the capacity.
pub fn window<R: Runtime>(
    rt: R,
    alloc: Global,
    capacity: usize,
    wanted: usize,
) -> io::Result<(Vec<u64>, Vec<u64>)>
    requires capacity { 2 ≤ capacity }
    ensures window { IfOk result (λ r. (left : List ℕ) × (r.0.items ≡ r.1.items ++ left)
        × (length left ≤ capacity)) }
    ensures wanted { IfOk result (λ r. length r.1.items ≡ wanted) }
{
    let channel = UnopenedChannel::bounded(capacity, 3);
    window_named::<R, Brand>(rt, alloc, channel, capacity, wanted)
}
