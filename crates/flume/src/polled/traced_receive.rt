//! A receive as a future, of a receiver with a trace.
ghost use Rattle.std.specs.Prelude.{◌≡◌, [], Some, None, Ok, IsSomeAnd};
ghost use Rattle.futures.specs.Task.{Covers, Keeps};
ghost use Rattle.flume_party.specs.Parties.{PartyState};
ghost use Rattle.flume_actions.specs.Actions.{Action};
ghost use Rattle.flume_actions.specs.Callers.{HasMadeCalls};
ghost use Rattle.flume.specs.EndedCalls.{GivesReceive, HasEndedReceive};
ghost use Rattle.flume.specs.TracedPolls.{CanReceive, ReceivesOn, got_if};

use crate::receiver::Receiver;
use crate::shared::{Shared, Waits};
use crate::task::Task;
use flume_calls::calls::RecvNext;
use flume_calls::polled::PolledReceive;
use flume_core::error::RecvError;
use flume_keeper::{ChannelName, ChannelParty, Keeper, Traced};
use flume_model::step::Kind;
use futures::Future;
use futures::task::{Context, Poll};
use std::alloc::{Allocator, Global};
use std::snapshot::Snapshot;

/// The next message, as a future with a party, which comes back with the answer. Dropped as it
/// waits, it passes its wake on to a receiver, and the party is lost.
pub type TracedRecvFut<'a, T, R, J, A = Global> = PartyRecvFut<'a, T, R, A, Traced<T, A, J>>;

/// A `TracedRecvFut`, of any keeper.
pub struct PartyRecvFut<'a, T, R, A, K>
where
    R: Waits,
    A: Allocator + Copy,
    K: Keeper<T, A, Party: Drop>,
{
    receiver: &'a Receiver<T, R, A, K>,
    call: PolledReceive,
    task: Task,
    // `None` once the answer was given.
    me: Option<K::Party>,
    start: Snapshot<K::Party>,
}

impl<T: Drop, R: Waits, A: Allocator + Copy, J: ChannelName> Receiver<T, R, A, Traced<T, A, J>> {
    /// As of a receiver without a trace. The party comes back with the answer.
    /// ```
    /// let channel = UnopenedChannel::unbounded(1);
    /// let (tx, rx, mut me) = flume::on(rt).traced::<u64, Brand>(channel)?;
    /// tx.send(&mut me, 7)?;
    /// let (mut me, message) = block_on(&rt, rx.recv_async(me))?;
    /// assert_eq!(rt; message, Ok(7));
    /// assert_eq!(rt; rx.settle(&mut me), Some(0));
    /// ```
    pub fn recv_async(&self, me: ChannelParty<T, J, A>) -> TracedRecvFut<'_, T, R, J, A>
        ensures start { result.start.value ≡ me }
        ensures call { result.call ≡ record { kind = Kind.Plain; call = None } }
        ensures party { result.me ≡ Some me }
        ensures can_poll { IsSomeAnd result.me (CanReceive result.start.value result.call.call) }
    {
        PartyRecvFut::new(self, me)
    }
}

impl<T: Drop, R: Waits, A: Allocator + Copy, J: ChannelName> Shared<T, R, A, Traced<T, A, J>> {
    pub(crate) fn leave(
        &self,
        me: &mut ChannelParty<T, J, A>,
        call: &mut PolledReceive,
    ) -> Option<T>
        ensures left { (start : PartyState (Action T A)) → CanReceive start call.old.call me.old
            → HasMadeCalls start me.new [] (got_if result) }
        ensures got { (start : PartyState (Action T A)) → CanReceive start call.old.call me.old
            → (message : T) → result ≡ Some message → HasEndedReceive start me.new (Ok message) }
        ensures unparked { call.old.call ≡ None → (me.new ≡ me.old) × (result ≡ None) }
    {
        let leaves = call.end()?;
        match self.call_cold(me, leaves) {
            RecvNext::Done(result) => result.ok(),
            _ => unreachable!(),
        }
    }

    // Once it has answered, the receive isn't parked.
    pub(crate) fn poll_once(
        &self,
        me: &mut ChannelParty<T, J, A>,
        call: &mut PolledReceive,
        task: &Task,
        cx: &mut Context<'_>,
    ) -> Option<Result<T, RecvError>>
        ensures goes_on { (start : PartyState (Action T A)) → CanReceive start call.old.call me.old
            → ReceivesOn start result call.new.call me.new }
        ensures registered { result ≡ None → Covers cx.new (λ s. s ≡ task.now.source.id) }
        ensures kept { Keeps cx.old cx.new }
    {
        let error = match self.poll(me, call, task, cx) {
            Some(Ok(message)) => return Some(Ok(message)),
            Some(Err(error)) => error,
            None => return None,
        };
        match self.leave(me, call) {
            Some(message) => Some(Ok(message)),
            None => Some(Err(error)),
        }
    }
}

impl<'a, T: Drop, R: Waits, A: Allocator + Copy, J: ChannelName> PartyRecvFut<
    'a,
    T,
    R,
    A,
    Traced<T, A, J>,
> {
    fn new(receiver: &'a Receiver<T, R, A, Traced<T, A, J>>, me: ChannelParty<T, J, A>) -> Self
        ensures start { result.start.value ≡ me }
        ensures call { result.call ≡ record { kind = Kind.Plain; call = None } }
        ensures party { result.me ≡ Some me }
        ensures can_poll { IsSomeAnd result.me (CanReceive result.start.value result.call.call) }
    {
        let start = Snapshot::of(&me);
        PartyRecvFut {
            receiver,
            call: PolledReceive::new(Kind::Plain),
            task: Task::new(),
            me: Some(me),
            start,
        }
    }

    /// Gives the party back, and the message if one was handed over. It can't be polled then.
    /// ```
    /// let channel = UnopenedChannel::unbounded(1);
    /// let (_tx, rx, me) = flume::on(rt).traced::<u64, Brand>(channel)?;
    /// let (_me, message) = rx.recv_async(me).cancel();
    /// assert_eq!(rt; message, None);
    /// ```
    pub fn cancel(&mut self) -> (ChannelParty<T, J, A>, Option<T>)
        requires can_poll { IsSomeAnd self.old.me
            (CanReceive self.old.start.value self.old.call.call) }
        ensures called { HasMadeCalls self.old.start.value result.0 [] (got_if result.1) }
        ensures unparked { self.old.call.call ≡ None
            → (self.old.me ≡ Some result.0) × (result.1 ≡ None) }
    {
        let Some(mut me) = self.me.take() else {
            unreachable!();
        };
        let shared = self.receiver.shared();
        let message = shared.leave(&mut me, &mut self.call);
        (me, message)
    }
}

impl<T: Drop, R: Waits, A: Allocator + Copy, J: ChannelName> Future
    for PartyRecvFut<'_, T, R, A, Traced<T, A, J>> {
    type Output = (ChannelParty<T, J, A>, Result<T, RecvError>);

    ghost can_poll = { λ future.
        IsSomeAnd future.me (CanReceive future.start.value future.call.call) };

    ghost gives = { λ future answer. GivesReceive future.start.value answer.0 answer.1 };

    ghost needs = { λ future source. source ≡ future.task.source.id };

    fn poll(&mut self, cx: &mut Context<'_>) -> Poll<Self::Output> {
        let Some(mut me) = self.me.take() else {
            unreachable!();
        };
        let shared = self.receiver.shared();
        match shared.poll_once(&mut me, &mut self.call, &self.task, cx) {
            Some(answer) => Poll::Ready((me, answer)),
            None => {
                self.me = Some(me);
                Poll::Pending
            }
        }
    }
}

impl<T, R, A, K> Drop for PartyRecvFut<'_, T, R, A, K>
where
    T: Drop,
    R: Waits,
    A: Allocator + Copy,
    K: Keeper<T, A, Party: Drop>,
{
    fn drop(self) {
        let Self {
            receiver,
            mut call,
            task: _,
            me,
            start: _,
        } = self;
        if let (Some(mut me), Some(leaves)) = (me, call.end()) {
            receiver.shared().call_cold(&mut me, leaves);
        }
    }
}
