//! A sender with a trace, as a sink.
ghost use Rattle.std.specs.Prelude.{◌≡◌, [], ⊤, List, Some, None, IsSomeAnd, Result};
ghost use Rattle.std.specs.Prelude.{Ok, Err, OnOk};
ghost use Rattle.flume_core.specs.declared.error.SendError.{SendError};
ghost use Rattle.futures.specs.Task.{Covers, Keeps};
ghost use Rattle.futures.specs.Poll.{IfReady, OnPending};
ghost use Rattle.futures.specs.Sent.{UnlessFailed};
ghost use Rattle.flume_actions.specs.Callers.{HasMadeCalls};
ghost use Rattle.flume.specs.EndedCalls.{AnswersSink};
ghost use Rattle.flume.specs.TracedPolls.{CanSink, sent_of};

use crate::sender::Sender;
use crate::shared::Waits;
use crate::task::Task;
use flume_calls::polled::PolledSend;
use flume_core::error::SendError;
use flume_keeper::{ChannelName, ChannelParty, Keeper, Traced};
use futures::Sink;
use futures::task::{Context, Poll};
use std::alloc::{Allocator, Global};
use std::snapshot::Snapshot;

/// A sender with a trace, as a sink that owns its party. A message that it takes is sent by the
/// next polls. Dropped as it waits, it takes its message back and drops it, and the party is lost.
pub type TracedSendSink<'a, T, R, J, A = Global> = PartySendSink<'a, T, R, A, Traced<T, A, J>>;

/// A `TracedSendSink`, of any keeper.
pub struct PartySendSink<'a, T, R, A, K>
where
    R: Waits,
    A: Allocator + Copy,
    K: Keeper<T, A, Party: Drop>,
{
    sender: &'a Sender<T, R, A, K>,
    sending: Option<Sending<T>>,
    task: Task,
    // `None` once it was given back.
    me: Option<K::Party>,
    // the party at the last answer
    start: Snapshot<K::Party>,
}

#[derive(Drop)]
struct Sending<T> {
    send: PolledSend<T>,
    message: Snapshot<T>,
}

impl<T: Drop, R: Waits, A: Allocator + Copy, J: ChannelName> Sender<T, R, A, Traced<T, A, J>> {
    /// As of a sender without a trace. The sink has the party; `cancel` gives it back.
    /// ```
    /// let channel = UnopenedChannel::unbounded(1);
    /// let (tx, rx, me) = flume::on(rt).traced::<u64, Brand>(channel)?;
    /// let messages = tx.sink(me);
    /// let mut messages = block_on(&rt, messages.send(7))??;
    /// let (mut me, _sent) = messages.cancel();
    /// assert_eq!(rt; rx.recv(&mut me), Ok(7));
    /// ```
    pub fn sink(&self, me: ChannelParty<T, J, A>) -> TracedSendSink<'_, T, R, J, A>
        ensures start { result.start.value ≡ me }
        ensures party { result.me ≡ Some me }
        ensures can_poll { IsSomeAnd result.me (CanSink result.start.value result.sending) }
        ensures no_message { result.sending ≡ None }
    {
        let start = Snapshot::of(&me);
        PartySendSink {
            sender: self,
            sending: None,
            task: Task::new(),
            me: Some(me),
            start,
        }
    }
}

impl<'a, T: Drop, R: Waits, A: Allocator + Copy, J: ChannelName> PartySendSink<
    'a,
    T,
    R,
    A,
    Traced<T, A, J>,
> {
    /// Gives the party back, with what it did since the last answer. `Err` has the message that the
    /// sink took, and that wasn't sent.
    pub fn cancel(&mut self) -> (ChannelParty<T, J, A>, Result<(), T>)
        requires can_poll { IsSomeAnd self.old.me
            (CanSink self.old.start.value self.old.sending) }
        ensures called { HasMadeCalls self.old.start.value result.0
            (sent_of self.old.sending result.1) [] }
        ensures no_message { self.old.sending ≡ None
            → (self.old.me ≡ Some result.0) × (result.1 ≡ Ok tt) }
        ensures unsent { (message : T) → IsSomeAnd self.old.sending (λ sending.
            sending.send ≡ PolledSend.Unsent message)
            → (self.old.me ≡ Some result.0) × (result.1 ≡ Err message) }
    {
        let Some(mut me) = self.me.take() else {
            unreachable!();
        };
        let mut sending = match self.sending.take() {
            Some(sending) => sending,
            None => return (me, Ok(())),
        };
        let sent = self.sender.shared().take_back(&mut me, &mut sending.send);
        (me, sent)
    }

    fn poll_sent(&mut self, cx: &mut Context<'_>) -> Poll<Result<(), SendError<T>>>
        requires can_poll { IsSomeAnd self.old.me (CanSink self.old.start.value self.old.sending) }
        ensures registered { OnPending result
            (Covers cx.new (λ source. source ≡ self.new.task.source.id)) }
        ensures kept { Keeps cx.old cx.new }
        ensures called { IfReady result (λ answer. HasMadeCalls self.old.start.value
            self.new.start.value (sent_of self.old.sending answer) []) }
        ensures answered { IfReady result
            (AnswersSink self.old.start.value self.old.sending self.new.start.value) }
        ensures can_poll { IsSomeAnd self.new.me (CanSink self.new.start.value self.new.sending) }
        ensures waits { OnPending result (self.new.start ≡ self.old.start) }
        ensures offers { OnPending result ((answer : Result (Unit {0}) (SendError T))
            → sent_of self.new.sending answer ≡ sent_of self.old.sending answer) }
        ensures ends { IfReady result (λ _. self.new.sending ≡ None) }
    {
        let mut sending = match self.sending.take() {
            Some(sending) => sending,
            None => return Poll::Ready(Ok(())),
        };
        let Some(mut me) = self.me.take() else {
            unreachable!();
        };
        let shared = self.sender.shared();
        match shared.poll(&mut me, &mut sending.send, &self.task, cx) {
            Some(answer) => {
                self.start = Snapshot::of(&me);
                self.me = Some(me);
                Poll::Ready(answer)
            }
            None => {
                self.sending = Some(sending);
                self.me = Some(me);
                Poll::Pending
            }
        }
    }
}

impl<T: Drop, R: Waits, A: Allocator + Copy, J: ChannelName> Sink<T>
    for PartySendSink<'_, T, R, A, Traced<T, A, J>> {
    type Error = SendError<T>;

    ghost can_poll = { λ sink. IsSomeAnd sink.me (CanSink sink.start.value sink.sending) };

    ghost can_send = { λ sink. sink.sending ≡ None };

    ghost is_flushed = { λ sink. sink.sending ≡ None };

    ghost is_closed = { λ sink. sink.sending ≡ None };

    ghost needs = { λ sink source. source ≡ sink.task.source.id };

    fn poll_ready(&mut self, cx: &mut Context<'_>) -> Poll<Result<(), SendError<T>>>
        requires can_poll { IsSomeAnd self.old.me (CanSink self.old.start.value self.old.sending) }
        ensures ready { IfReady result (λ answer. OnOk answer
            ((IsSomeAnd self.new.me (CanSink self.new.start.value self.new.sending))
            × (self.new.sending ≡ None))) }
        ensures again { OnPending result
            (IsSomeAnd self.new.me (CanSink self.new.start.value self.new.sending)) }
        ensures same { T → ⊤ → ⊤ }
        ensures history { UnlessFailed result (List T → ⊤ → ⊤) }
        ensures registered { OnPending result
            (Covers cx.new (λ source. source ≡ self.new.task.source.id)) }
        ensures kept { Keeps cx.old cx.new }
        ensures called { IfReady result (λ answer. HasMadeCalls self.old.start.value
            self.new.start.value (sent_of self.old.sending answer) []) }
        ensures answered { IfReady result
            (AnswersSink self.old.start.value self.old.sending self.new.start.value) }
        ensures can_poll { IsSomeAnd self.new.me (CanSink self.new.start.value self.new.sending) }
        ensures waits { OnPending result (self.new.start ≡ self.old.start) }
        ensures offers { OnPending result ((answer : Result (Unit {0}) (SendError T))
            → sent_of self.new.sending answer ≡ sent_of self.old.sending answer) }
        ensures ends { IfReady result (λ _. self.new.sending ≡ None) }
    {
        self.poll_sent(cx)
    }

    fn start_send(&mut self, message: T) -> Result<(), SendError<T>>
        requires ready { IsSomeAnd self.old.me (CanSink self.old.start.value self.old.sending)
            × (self.old.sending ≡ None) }
        ensures goes { OnOk result
            (IsSomeAnd self.new.me (CanSink self.new.start.value self.new.sending)) }
        ensures same { T → ⊤ → ⊤ }
        ensures history { OnOk result ((items : List T) → ⊤ → ⊤) }
        ensures keeps { IsSomeAnd self.new.sending (λ sending.
            sending.message.value ≡ message) }
        ensures unsent { IsSomeAnd self.new.sending (λ sending.
            sending.send ≡ PolledSend.Unsent message) }
        ensures party { self.new.me ≡ self.old.me }
        ensures start { self.new.start ≡ self.old.start }
        ensures can_poll { IsSomeAnd self.new.me (CanSink self.new.start.value self.new.sending) }
        ensures ok { result ≡ Ok tt }
    {
        let offered = Snapshot::of(&message);
        self.sending = Some(Sending {
            send: PolledSend::Unsent(message),
            message: offered,
        });
        Ok(())
    }

    fn poll_flush(&mut self, cx: &mut Context<'_>) -> Poll<Result<(), SendError<T>>>
        requires can_poll { IsSomeAnd self.old.me (CanSink self.old.start.value self.old.sending) }
        ensures goes { IfReady result (λ answer. OnOk answer
            (IsSomeAnd self.new.me (CanSink self.new.start.value self.new.sending))) }
        ensures flushed { IfReady result (λ answer. OnOk answer (self.new.sending ≡ None)) }
        ensures again { OnPending result
            (IsSomeAnd self.new.me (CanSink self.new.start.value self.new.sending)) }
        ensures same { T → ⊤ → ⊤ }
        ensures history { UnlessFailed result (List T → ⊤ → ⊤) }
        ensures registered { OnPending result
            (Covers cx.new (λ source. source ≡ self.new.task.source.id)) }
        ensures kept { Keeps cx.old cx.new }
        ensures called { IfReady result (λ answer. HasMadeCalls self.old.start.value
            self.new.start.value (sent_of self.old.sending answer) []) }
        ensures answered { IfReady result
            (AnswersSink self.old.start.value self.old.sending self.new.start.value) }
        ensures can_poll { IsSomeAnd self.new.me (CanSink self.new.start.value self.new.sending) }
        ensures waits { OnPending result (self.new.start ≡ self.old.start) }
        ensures offers { OnPending result ((answer : Result (Unit {0}) (SendError T))
            → sent_of self.new.sending answer ≡ sent_of self.old.sending answer) }
        ensures ends { IfReady result (λ _. self.new.sending ≡ None) }
    {
        self.poll_sent(cx)
    }

    fn poll_close(&mut self, cx: &mut Context<'_>) -> Poll<Result<(), SendError<T>>>
        requires can_poll { IsSomeAnd self.old.me (CanSink self.old.start.value self.old.sending) }
        ensures closed { IfReady result (λ answer. OnOk answer (self.new.sending ≡ None)) }
        ensures again { OnPending result
            (IsSomeAnd self.new.me (CanSink self.new.start.value self.new.sending)) }
        ensures history { UnlessFailed result (List T → ⊤ → ⊤) }
        ensures registered { OnPending result
            (Covers cx.new (λ source. source ≡ self.new.task.source.id)) }
        ensures kept { Keeps cx.old cx.new }
        ensures called { IfReady result (λ answer. HasMadeCalls self.old.start.value
            self.new.start.value (sent_of self.old.sending answer) []) }
        ensures answered { IfReady result
            (AnswersSink self.old.start.value self.old.sending self.new.start.value) }
        ensures can_poll { IsSomeAnd self.new.me (CanSink self.new.start.value self.new.sending) }
        ensures waits { OnPending result (self.new.start ≡ self.old.start) }
        ensures offers { OnPending result ((answer : Result (Unit {0}) (SendError T))
            → sent_of self.new.sending answer ≡ sent_of self.old.sending answer) }
        ensures ends { IfReady result (λ _. self.new.sending ≡ None) }
    {
        self.poll_sent(cx)
    }
}

impl<T, R, A, K> Drop for PartySendSink<'_, T, R, A, K>
where
    T: Drop,
    R: Waits,
    A: Allocator + Copy,
    K: Keeper<T, A, Party: Drop>,
{
    fn drop(self) {
        let Self {
            sender,
            sending,
            task: _,
            me,
            start: _,
        } = self;
        if let (Some(mut me), Some(mut sending)) = (me, sending) {
            if let Some(takes_back) = sending.send.end() {
                sender.shared().call_cold(&mut me, takes_back);
            }
        }
    }
}
