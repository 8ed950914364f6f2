//! Two tellers move money through one channel, and the total on their accounts stays the same.
//!
//! This is how a program proves an invariant of its own. The clause of `serve` says it of one
//! thread: its party made whole calls, and the account and the sum of what they sent are, together,
//! what the account was before and the sum of what they got. Both loops keep that. When the parties
//! are merged, a law says that the sum over all that was sent is the sum over all that was got. For
//! another invariant, write another relation behind `HasMadeCallsWhere`, and take the sum of
//! another number.
ghost use Rattle.std.specs.Prelude.{◌≡◌, ◌+◌, IfOk, sum};
ghost use Rattle.flume_laws.specs.Invariants.{HasMadeCallsWhere};

use flume::traced::{ChannelName, ChannelParty, TracedReceiver, TracedSender, UnopenedChannel};
use flume::{RecvError, Runtime, Waits};
use std::io::{self, ErrorKind};
use std::marker::Brand;
use std::thread::join;

/// A teller: sends the amounts from the account, drops the sender, and receives onto the account
/// until all senders are dropped. An amount that isn't on the account is an error.
pub fn serve<R: Waits, J: ChannelName>(
    rt: R,
    tx: TracedSender<u64, R, J>,
    rx: &TracedReceiver<u64, R, J>,
    mut me: ChannelParty<u64, J>,
    mut account: u64,
    amounts: &[u64],
) -> io::Result<(ChannelParty<u64, J>, u64)>
    ensures kept { IfOk result (λ r. HasMadeCallsWhere me r.0
        (λ sent got. r.1 + sum sent ≡ account + sum got)) }
{
    for amount in amounts {
        account = account.checked_sub(*amount).ok_or(ErrorKind::Other)?;
        tx.send(&mut me, *amount)?;
    }
    drop(tx);
    for _ in rt.forever() {
        let amount = match rx.recv(&mut me) {
            Ok(amount) => amount,
            Err(RecvError::Disconnected) => return Ok((me, account)),
            Err(error) => return Err(error.into()),
        };
        account = account.checked_add(amount).ok_or(ErrorKind::Other)?;
    }
    unreachable!()
}

/// What two tellers have on their accounts at the end, over a channel of this name.
pub fn transfer_named<R: Runtime, J: ChannelName + Send + Sync>(
    rt: R,
    channel: UnopenedChannel,
    accounts: (u64, u64),
    first: &[u64],
    second: &[u64],
) -> io::Result<(u64, u64)>
    requires named { channel ≡ J.identity }
    requires parts { channel.parts ≡ 3 }
    ensures kept { IfOk result (λ r. r.0 + r.1 ≡ accounts.0 + accounts.1) }
{
    let (tx, rx, mut all) = flume::on(rt).traced::<u64, J>(channel)?;
    let (one, other, other_tx) = (all.split_off(1), all.split_off(1), tx.clone()?);
    let (one, other) = join(
        &rt,
        || serve(rt, tx, &rx, one, accounts.0, first),
        || serve(rt, other_tx, &rx, other, accounts.1, second),
    );
    let ((one, left), (other, right)) = (one?, other?);
    all.merge(one);
    all.merge(other);
    let Some(0) = rx.settle(&mut all) else {
        return Err(ErrorKind::Other.into());
    };
    Ok((left, right))
}

/// Two tellers, each in a thread, send these amounts from their accounts into a channel, and take
/// out what is there, whoever sent it. The total on both accounts is what it was before.
pub fn transfer<R: Runtime>(
    rt: R,
    accounts: (u64, u64),
    first: &[u64],
    second: &[u64],
) -> io::Result<(u64, u64)>
    ensures kept { IfOk result (λ r. r.0 + r.1 ≡ accounts.0 + accounts.1) }
{
    transfer_named::<R, Brand>(rt, UnopenedChannel::unbounded(3), accounts, first, second)
}
