//! Channels that are opened, and parties that are split.
ghost use Rattle.std.specs.Prelude.{◌≡◌, [], IfOk, Some};
ghost use Rattle.flume.specs.Parties.{party_of};
ghost use Rattle.test_promises.specs.Openings.{HasOffered};

use flume::error::NoMemory;
use flume::traced::{ChannelName, ChannelParty, UnopenedChannel};
use flume::{Builder, TrySendError, Waits};
use std::alloc::Allocator;
use std::marker::Brand;

/// Splits a party of two parts into two parties of one part each. The first one keeps its actions.
pub fn split<T, J: ChannelName>(me: &mut ChannelParty<T, J>) -> ChannelParty<T, J>
    requires two { me.old.parts ≡ 2 }
    ensures one { me.new.parts ≡ 1 }
    ensures kept { me.new.actions ≡ me.old.actions }
    ensures other { result ≡ party_of 1 [] }
{
    me.split_off(1)
}

/// Opens a channel of this name, offers one message, and settles. By the settling, the offer and
/// its reply are all that sent or received in that channel, and the reply was the abstract
/// channel's, of the capacity that the channel was opened with.
pub fn offer_in_named<T: Drop, J: ChannelName, R: Waits, A: Allocator + Copy>(
    builder: Builder<R, A>,
    channel: UnopenedChannel,
    message: T,
) -> Result<Result<(), TrySendError<T>>, NoMemory>
    requires named { channel ≡ J.identity }
    requires one_part { channel.parts ≡ 1 }
    ensures offered { IfOk result (HasOffered A channel.capacity message) }
{
    let (tx, rx, mut me) = builder.traced::<T, J>(channel)?;
    let sent = tx.try_send(&mut me, message);
    rx.settle(&mut me);
    Ok(sent)
}

/// Opens a bounded channel, offers one message, and settles. The reply to the offer was that of an
/// abstract channel of this capacity.
pub fn offer_in_bounded<T: Drop, R: Waits, A: Allocator + Copy>(
    builder: Builder<R, A>,
    capacity: usize,
    message: T,
) -> Result<Result<(), TrySendError<T>>, NoMemory>
    ensures offered { IfOk result (HasOffered A (Some capacity) message) }
{
    let channel = UnopenedChannel::bounded(capacity, 1);
    offer_in_named::<T, Brand, R, A>(builder, channel, message)
}
