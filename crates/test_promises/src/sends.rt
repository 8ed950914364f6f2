//! Sends into channels with a trace.
ghost use Rattle.std.specs.Prelude.{◌≡◌, true, false, [], Err};
ghost use Rattle.flume.specs.declared.step.Step.TheVariants.{TrySend};
ghost use Rattle.flume.specs.SendTurns.{after_try_send};
ghost use Rattle.flume.specs.Calls.{HasCalled, HasSent, HasStepped, sent_by};
ghost use Rattle.flume.specs.CallSteps.{try_send_as_turn, send_as_timed};

use flume::traced::{ChannelName, ChannelParty, TracedSender};
use flume::{SendError, TrySendError, Waits};

/// Offers a message, and doesn't wait. The party made one call, a try, in its own channel. It sent
/// the message if the result is `Ok`, and nothing otherwise. The result is the one to the channel's
/// reply.
pub fn offer<T: Drop, J: ChannelName, R: Waits>(
    tx: &TracedSender<T, R, J>,
    me: &mut ChannelParty<T, J>,
    message: T,
) -> Result<(), TrySendError<T>>
    ensures offered { HasCalled me.old me.new (sent_by message result) [] }
    ensures made { HasStepped (TrySend message) after_try_send me.old (try_send_as_turn result)
        me.new }
{
    tx.try_send(me, message)
}

/// Sends a message into one of two channels. The party of that channel made one send with this
/// result, which sent the message if it is `Ok`. The party of the other channel made none.
pub fn send_into<T: Drop, J: ChannelName, K: ChannelName, R: Waits>(
    ends: (&TracedSender<T, R, J>, &TracedSender<T, R, K>),
    one: &mut ChannelParty<T, J>,
    other: &mut ChannelParty<T, K>,
    into_other: bool,
    message: T,
) -> Result<(), SendError<T>>
    ensures sent { into_other ≡ false → HasCalled one.old one.new (sent_by message result) [] }
    ensures other_sent { into_other ≡ true
        → HasCalled other.old other.new (sent_by message result) [] }
    ensures made { into_other ≡ false → HasSent one.old message one.new (send_as_timed result) }
    ensures other_made { into_other ≡ true
        → HasSent other.old message other.new (send_as_timed result) }
    ensures same { into_other ≡ true → one.new ≡ one.old }
    ensures other_same { into_other ≡ false → other.new ≡ other.old }
{
    let (tx, other_tx) = ends;
    if into_other {
        other_tx.send(other, message)
    } else {
        tx.send(one, message)
    }
}

/// Makes a future of a send, and cancels it before it is polled. The party comes back as it was, with
/// the message.
pub fn make_and_cancel<T: Drop, J: ChannelName, R: Waits>(
    tx: &TracedSender<T, R, J>,
    me: ChannelParty<T, J>,
    message: T,
) -> (ChannelParty<T, J>, Result<(), T>)
    ensures unsent { result ≡ (me, Err message) }
{
    tx.send_async(me, message).cancel()
}
