//! A send as a future, of a sender with a trace.
ghost use Rattle.std.specs.Prelude.{◌≡◌, [], Some, Err, IsSomeAnd};
ghost use Rattle.flume_party.specs.Parties.{PartyState};
ghost use Rattle.flume_actions.specs.Actions.{Action};
ghost use Rattle.flume_actions.specs.Calls.{sent_by};
ghost use Rattle.flume_actions.specs.Callers.{HasMadeCalls};
ghost use Rattle.flume.specs.EndedCalls.{GivesSend};
ghost use Rattle.flume.specs.TracedPolls.{CanSend};

use crate::sender::Sender;
use crate::shared::{Shared, Waits};
use crate::task::Task;
use flume_calls::calls::{AgainSend, SendNext};
use flume_calls::polled::PolledSend;
use flume_core::error::SendError;
use flume_keeper::{ChannelName, ChannelParty, Keeper, Traced};
use futures::Future;
use futures::task::{Context, Poll};
use std::alloc::{Allocator, Global};
use std::mem::replace;
use std::snapshot::Snapshot;

/// A send, as a future with a party, which comes back with the answer. Nothing is sent until it is
/// polled. Dropped as it waits, it takes its message back and drops it, and the party is lost.
pub type TracedSendFut<'a, T, R, J, A = Global> = PartySendFut<'a, T, R, A, Traced<T, A, J>>;

/// A `TracedSendFut`, of any keeper.
pub struct PartySendFut<'a, T, R, A, K>
where
    R: Waits,
    A: Allocator + Copy,
    K: Keeper<T, A, Party: Drop>,
{
    sender: &'a Sender<T, R, A, K>,
    send: PolledSend<T>,
    task: Task,
    // `None` once the answer was given.
    me: Option<K::Party>,
    start: Snapshot<K::Party>,
    message: Snapshot<T>,
}

impl<T: Drop, R: Waits, A: Allocator + Copy, J: ChannelName> Sender<T, R, A, Traced<T, A, J>> {
    /// As of a sender without a trace. The party comes back with the answer.
    /// ```
    /// let channel = UnopenedChannel::unbounded(1);
    /// let (tx, _rx, me) = flume::on(rt).traced::<u64, Brand>(channel)?;
    /// let (_me, sent) = block_on(&rt, tx.send_async(me, 42))?;
    /// assert_eq!(rt; sent, Ok(()));
    /// ```
    pub fn send_async(&self, me: ChannelParty<T, J, A>, message: T) -> TracedSendFut<'_, T, R, J, A>
        ensures start { result.start.value ≡ me }
        ensures message { result.message.value ≡ message }
        ensures unsent { (result.send ≡ PolledSend.Unsent message) × (result.me ≡ Some me) }
        ensures can_poll { IsSomeAnd result.me
            (CanSend result.start.value result.message.value result.send) }
    {
        PartySendFut::new(self, me, message)
    }
}

impl<T: Drop, R: Waits, A: Allocator + Copy, J: ChannelName> Shared<T, R, A, Traced<T, A, J>> {
    pub(crate) fn take_back(
        &self,
        me: &mut ChannelParty<T, J, A>,
        send: &mut PolledSend<T>,
    ) -> Result<(), T>
        ensures back { (start : PartyState (Action T A)) (message : T)
            → CanSend start message send.old me.old
            → HasMadeCalls start me.new (sent_by message result) [] }
        ensures unsent { (message : T) → send.old ≡ PolledSend.Unsent message
            → (me.new ≡ me.old) × (result ≡ Err message) }
    {
        let call = match replace(send, PolledSend::Finished) {
            PolledSend::Unsent(message) => return Err(message),
            PolledSend::Parked(call) => call,
            PolledSend::Finished => return Ok(()),
        };
        let (last, signal) = (true, None);
        match self.call_cold(me, AgainSend { call, last, signal }) {
            SendNext::Done(Ok(())) => Ok(()),
            SendNext::Done(Err(error)) => Err(error.into_inner()),
            _ => unreachable!(),
        }
    }
}

impl<'a, T: Drop, R: Waits, A: Allocator + Copy, J: ChannelName> PartySendFut<
    'a,
    T,
    R,
    A,
    Traced<T, A, J>,
> {
    fn new(
        sender: &'a Sender<T, R, A, Traced<T, A, J>>,
        me: ChannelParty<T, J, A>,
        message: T,
    ) -> Self
        ensures start { result.start.value ≡ me }
        ensures message { result.message.value ≡ message }
        ensures unsent { (result.send ≡ PolledSend.Unsent message) × (result.me ≡ Some me) }
        ensures can_poll { IsSomeAnd result.me
            (CanSend result.start.value result.message.value result.send) }
    {
        let start = Snapshot::of(&me);
        let offered = Snapshot::of(&message);
        PartySendFut {
            sender,
            send: PolledSend::Unsent(message),
            task: Task::new(),
            me: Some(me),
            start,
            message: offered,
        }
    }

    /// Gives the party back. `Err` has the message, which wasn't sent. It can't be polled then.
    /// ```
    /// let channel = UnopenedChannel::unbounded(1);
    /// let (tx, _rx, me) = flume::on(rt).traced::<u64, Brand>(channel)?;
    /// let (_me, sent) = tx.send_async(me, 42).cancel();
    /// assert_eq!(rt; sent, Err(42));
    /// ```
    pub fn cancel(&mut self) -> (ChannelParty<T, J, A>, Result<(), T>)
        requires can_poll { IsSomeAnd self.old.me
            (CanSend self.old.start.value self.old.message.value self.old.send) }
        ensures called { HasMadeCalls self.old.start.value result.0
            (sent_by self.old.message.value result.1) [] }
        ensures unsent { (message : T) → self.old.send ≡ PolledSend.Unsent message
            → (self.old.me ≡ Some result.0) × (result.1 ≡ Err message) }
    {
        let Some(mut me) = self.me.take() else {
            unreachable!();
        };
        let shared = self.sender.shared();
        let sent = shared.take_back(&mut me, &mut self.send);
        (me, sent)
    }
}

impl<T: Drop, R: Waits, A: Allocator + Copy, J: ChannelName> Future
    for PartySendFut<'_, T, R, A, Traced<T, A, J>> {
    type Output = (ChannelParty<T, J, A>, Result<(), SendError<T>>);

    ghost can_poll = { λ future.
        IsSomeAnd future.me (CanSend future.start.value future.message.value future.send) };

    ghost gives = { λ future answer.
        GivesSend future.start.value future.message.value answer.0 answer.1 };

    ghost needs = { λ future source. source ≡ future.task.source.id };

    fn poll(&mut self, cx: &mut Context<'_>) -> Poll<Self::Output> {
        let Some(mut me) = self.me.take() else {
            unreachable!();
        };
        let shared = self.sender.shared();
        match shared.poll(&mut me, &mut self.send, &self.task, cx) {
            Some(answer) => Poll::Ready((me, answer)),
            None => {
                self.me = Some(me);
                Poll::Pending
            }
        }
    }
}

impl<T, R, A, K> Drop for PartySendFut<'_, T, R, A, K>
where
    T: Drop,
    R: Waits,
    A: Allocator + Copy,
    K: Keeper<T, A, Party: Drop>,
{
    fn drop(self) {
        let Self {
            sender,
            mut send,
            task: _,
            me,
            start: _,
            message: _,
        } = self;
        if let (Some(mut me), Some(takes_back)) = (me, send.end()) {
            sender.shared().call_cold(&mut me, takes_back);
        }
    }
}
