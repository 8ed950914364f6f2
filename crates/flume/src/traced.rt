//! Ends whose calls say what they did in this very channel.
//!
//! Each call takes a *party*, `me`, which knows its own actions and has no bytes. A program splits
//! off a party for each thread, and merges them again. Who has all parts knows by `settle` that its
//! actions are all that sent or received there. If no message is left, then what its threads sent is
//! what they received: `what_was_sent_is_what_was_got` of `flume_laws` says so.
//! ```
//! let channel = UnopenedChannel::bounded(4, 2);
//! let (tx, rx, mut me) = flume::on(rt).traced::<u64, Brand>(channel)?;
//! let mut other = me.split_off(1);
//! tx.send(&mut me, 7)?;
//! assert_eq!(rt; rx.recv(&mut other), Ok(7));
//! me.merge(other);
//! assert_eq!(rt; rx.settle(&mut me), Some(0));
//! ```
//! What a call does is one function, of these ends and of the others. Iterators, futures, sinks,
//! streams and the arms of a `Selector` own their party, and give it back. Clones, drops and
//! queries take no party.
ghost use Rattle.std.specs.Prelude.{◌≡◌, ◌≢◌, ◌<◌, [], IfOk, Err};
ghost use Rattle.flume_model.specs.declared.step.Step.TheVariants.{TrySend, TryRecv, Drain};
ghost use Rattle.flume_model.specs.declared.step.Step.TheVariants.{SetCapacity};
ghost use Rattle.flume_calls.specs.ReceiveTurns.{after_try_recv};
ghost use Rattle.flume_calls.specs.SendTurns.{after_try_send};
ghost use Rattle.flume_calls.specs.Singles.{after_set_capacity};
ghost use Rattle.flume_deadline.specs.declared.Deadline.{Deadline};
ghost use Rattle.flume_deadline.specs.Deadlines.{IsAfter};
ghost use Rattle.flume_party.specs.Parties.{party_of};
ghost use Rattle.flume_actions.specs.Actions.{IsPart, IsWhole};
ghost use Rattle.flume_actions.specs.Calls.{HasCalled, HasSent, HasReceived, HasStepped};
ghost use Rattle.flume_actions.specs.Calls.{sent_by, got_by, drained_by};
ghost use Rattle.flume.specs.CallSteps as answer;
ghost use Rattle.flume.specs.GateSteps.{Receives, Sends};
ghost use Rattle.flume.specs.Iterators.{after_drain};

mod recv_many;
mod send_many;

use crate::builder::Builder;
use crate::drain::Drain as Drained;
use crate::opening;
use crate::receiver::Receiver;
use crate::sender::Sender;
use crate::shared::Waits;
use crate::weak::WeakSender;
use flume_core::error::{
    CapacityError, NoMemory, RecvError, RecvTimeoutError, SendError, SendTimeoutError,
    TryRecvError, TrySendError,
};
use flume_deadline::Deadline;
pub use flume_keeper::{ChannelName, ChannelParty, Traced, UnopenedChannel};
use std::alloc::{Allocator, Global};
use std::time::{Duration, Instant};

/// A sender of a channel that keeps a trace.
pub type TracedSender<T, R, J, A = Global> = Sender<T, R, A, Traced<T, A, J>>;

/// A receiver of a channel that keeps a trace.
pub type TracedReceiver<T, R, J, A = Global> = Receiver<T, R, A, Traced<T, A, J>>;

/// A weak sender of a channel that keeps a trace.
pub type TracedWeakSender<T, R, J, A = Global> = WeakSender<T, R, A, Traced<T, A, J>>;

/// The ends of a channel that keeps a trace, and the party with all parts.
pub type TracedEnds<T, R, J, A = Global> = (
    TracedSender<T, R, J, A>,
    TracedReceiver<T, R, J, A>,
    ChannelParty<T, J, A>,
);

impl<R: Waits, A: Allocator + Copy> Builder<R, A> {
    /// Opens a channel that keeps a trace: its ends, and the party with all parts. `NoMemory`: it
    /// couldn't be allocated.
    pub fn traced<T: Drop, J: ChannelName>(
        self,
        channel: UnopenedChannel,
    ) -> Result<TracedEnds<T, R, J, A>, NoMemory>
        requires named { channel ≡ J.identity }
        requires some { 0 < channel.parts }
        ensures sender { IfOk result (λ ends. ends.0 ≡ self.number) }
        ensures receiver { IfOk result (λ ends. ends.1 ≡ self.number) }
        ensures party { IfOk result (λ ends. ends.2 ≡ party_of channel.parts []) }
    {
        let capacity = channel.capacity();
        let (traced, me) = Traced::open(channel);
        let (rt, alloc, id) = self.into_parts();
        let (tx, rx) = opening::ends(rt, alloc, id, capacity, traced)?;
        Ok((tx, rx, me))
    }
}

impl<T: Drop, R: Waits, A: Allocator + Copy, J: ChannelName> Sender<T, R, A, Traced<T, A, J>> {
    /// As of a sender without a trace. One step: the message was sent, or refused.
    pub fn try_send(
        &self,
        me: &mut ChannelParty<T, J, A>,
        message: T,
    ) -> Result<(), TrySendError<T>>
        ensures called { HasCalled me.old me.new (sent_by message result) [] }
        ensures made { HasStepped (TrySend message) after_try_send me.old
            (answer.try_send_as_turn result) me.new }
        ensures full { (back : T) → result ≡ Err (TrySendError.Full back) → back ≡ message }
        ensures disconnected { (back : T) → result ≡ Err (TrySendError.Disconnected back)
            → back ≡ message }
        ensures no_memory { (back : T) → result ≡ Err (TrySendError.NoMemory back)
            → back ≡ message }
    {
        self.try_send_as(me, message)
    }

    /// As of a sender without a trace. The steps are a send's, with this result.
    pub fn send(&self, me: &mut ChannelParty<T, J, A>, message: T) -> Result<(), SendError<T>>
        ensures called { HasCalled me.old me.new (sent_by message result) [] }
        ensures made { HasSent me.old message me.new (answer.send_as_timed result) }
        ensures no_memory { (back : T) → result ≡ Err (SendError.NoMemory back) → back ≡ message }
    {
        self.send_as(me, message)
    }

    /// As of a sender without a trace. The steps are a send's, with this result.
    pub fn send_deadline(
        &self,
        me: &mut ChannelParty<T, J, A>,
        message: T,
        deadline: Instant,
    ) -> Result<(), SendTimeoutError<T>>
        ensures called { HasCalled me.old me.new (sent_by message result) [] }
        ensures made { HasSent me.old message me.new result }
        ensures sends { Sends A (Deadline.At deadline) message result }
        ensures no_memory { (back : T) → result ≡ Err (SendTimeoutError.NoMemory back)
            → back ≡ message }
    {
        self.send_until(me, message, Deadline::At(deadline))
    }

    /// As of a sender without a trace. The steps are a send's, with this result.
    pub fn send_timeout(
        &self,
        me: &mut ChannelParty<T, J, A>,
        message: T,
        timeout: Duration,
    ) -> Result<(), SendTimeoutError<T>>
        ensures called { HasCalled me.old me.new (sent_by message result) [] }
        ensures made { HasSent me.old message me.new result }
        ensures sends { (deadline : Deadline) × IsAfter timeout deadline
            × Sends A deadline message result }
        ensures no_memory { (back : T) → result ≡ Err (SendTimeoutError.NoMemory back)
            → back ≡ message }
    {
        let deadline = Deadline::after(&self.shared().rt, timeout);
        self.send_until(me, message, deadline)
    }

    /// As of a sender without a trace. One step: the capacity was set, or the call was refused.
    pub fn set_capacity(
        &self,
        me: &mut ChannelParty<T, J, A>,
        capacity: usize,
    ) -> Result<(), CapacityError>
        ensures made { HasStepped (SetCapacity capacity) after_set_capacity me.old result me.new }
    {
        self.shared().set_capacity(me, capacity)
    }

    /// As `TracedReceiver::confirm`.
    pub fn confirm(&self, me: &mut ChannelParty<T, J, A>)
        ensures party { me.new ≡ me.old }
        ensures part { IsPart J.identity.capacity me.old.actions }
    {
        self.shared().confirm(me);
    }
}

impl<T: Drop, R: Waits, A: Allocator + Copy, J: ChannelName> Receiver<T, R, A, Traced<T, A, J>> {
    /// As of a receiver without a trace. One step: a message was got, or none was there.
    pub fn try_recv(&self, me: &mut ChannelParty<T, J, A>) -> Result<T, TryRecvError>
        ensures called { HasCalled me.old me.new [] (got_by result) }
        ensures made { HasStepped TryRecv after_try_recv me.old
            (answer.try_receive_as_turn result) me.new }
        ensures never_no_memory { result ≢ Err TryRecvError.NoMemory }
    {
        self.try_recv_as(me)
    }

    /// As of a receiver without a trace. The steps are a receive's, with this result.
    pub fn recv(&self, me: &mut ChannelParty<T, J, A>) -> Result<T, RecvError>
        ensures called { HasCalled me.old me.new [] (got_by result) }
        ensures made { HasReceived me.old me.new (answer.receive_as_timed result) }
    {
        self.recv_as(me)
    }

    /// As of a receiver without a trace. The steps are a receive's, with this result.
    pub fn recv_deadline(
        &self,
        me: &mut ChannelParty<T, J, A>,
        deadline: Instant,
    ) -> Result<T, RecvTimeoutError>
        ensures called { HasCalled me.old me.new [] (got_by result) }
        ensures made { HasReceived me.old me.new result }
        ensures receives { Receives A (Deadline.At deadline) result }
    {
        self.recv_until(me, Deadline::At(deadline))
    }

    /// As of a receiver without a trace. The steps are a receive's, with this result.
    pub fn recv_timeout(
        &self,
        me: &mut ChannelParty<T, J, A>,
        timeout: Duration,
    ) -> Result<T, RecvTimeoutError>
        ensures called { HasCalled me.old me.new [] (got_by result) }
        ensures made { HasReceived me.old me.new result }
        ensures receives { (deadline : Deadline) × IsAfter timeout deadline
            × Receives A deadline result }
    {
        let deadline = Deadline::after(&self.shared().rt, timeout);
        self.recv_until(me, deadline)
    }

    /// As of a receiver without a trace. One step.
    pub fn drain(&self, me: &mut ChannelParty<T, J, A>) -> Result<Drained<'_, T, A>, NoMemory>
        ensures called { HasCalled me.old me.new [] (drained_by result) }
        ensures made { HasStepped Drain after_drain me.old result me.new }
    {
        self.drain_as(me)
    }

    /// As of a receiver without a trace. One step: the capacity was set, or the call was refused.
    pub fn set_capacity(
        &self,
        me: &mut ChannelParty<T, J, A>,
        capacity: usize,
    ) -> Result<(), CapacityError>
        ensures made { HasStepped (SetCapacity capacity) after_set_capacity me.old result me.new }
    {
        self.shared().set_capacity(me, capacity)
    }

    /// For any party, at any time. It changes nothing. Its clause says that the actions of `me`
    /// stand, in their order, in all that was done to this channel, and that each reply in that was
    /// the abstract channel's. It doesn't say that two such calls speak of the same history.
    pub fn confirm(&self, me: &mut ChannelParty<T, J, A>)
        ensures party { me.new ≡ me.old }
        ensures part { IsPart J.identity.capacity me.old.actions }
    {
        self.shared().confirm(me);
    }

    /// For whoever has all parts. It changes nothing, and answers how many messages are queued or
    /// blocked; `None` if no end lives, or if there are more than a `usize` can count. Its clause
    /// says that the actions of `me` are all that sent or received on this channel, or set its
    /// capacity, since it was opened, and that each reply was the abstract channel's.
    pub fn settle(&self, me: &mut ChannelParty<T, J, A>) -> Option<usize>
        requires whole { me.old.parts ≡ J.identity.parts }
        ensures party { me.new ≡ me.old }
        ensures whole { IsWhole J.identity.capacity me.old.actions result }
    {
        self.shared().settle(me)
    }
}
