//! The messages of a receiver with a trace, as a stream.
ghost use Rattle.std.specs.Prelude.{◌≡◌, [], ⊤, true, false, Some, None, option_to_list, IfSome};
ghost use Rattle.std.specs.Prelude.{OnSome};
ghost use Rattle.futures.specs.Task.{Covers, Keeps};
ghost use Rattle.futures.specs.Poll.{IfReady, OnPending};
ghost use Rattle.futures.specs.Runs.{After, Within};
ghost use Rattle.flume_actions.specs.Callers.{HasMadeCalls};
ghost use Rattle.flume.specs.EndedCalls.{AnswersReceive};
ghost use Rattle.flume.specs.ReceivePolls.{answer_of_item};
ghost use Rattle.flume.specs.TracedPolls.{CanReceive, got_if};

use crate::polled::stream::as_item;
use crate::receiver::Receiver;
use crate::shared::Waits;
use crate::task::Task;
use flume_calls::polled::PolledReceive;
use flume_keeper::{ChannelName, ChannelParty, Keeper, Traced};
use flume_model::step::Kind;
use futures::Stream;
use futures::task::{Context, Poll};
use std::alloc::{Allocator, Global};
use std::snapshot::Snapshot;

/// The messages of a receiver with a trace, as a stream that owns its party. `None`: there are no
/// more, and all senders have been dropped; or, if `fault` is true, there was no memory to wait.
/// Dropped as it waits, it passes its wake on to a receiver, and the party is lost.
pub type TracedRecvStream<'a, T, R, J, A = Global> = PartyRecvStream<'a, T, R, A, Traced<T, A, J>>;

/// A `TracedRecvStream`, of any keeper.
pub struct PartyRecvStream<'a, T, R, A, K>
where
    R: Waits,
    A: Allocator + Copy,
    K: Keeper<T, A, Party: Drop>,
{
    receiver: &'a Receiver<T, R, A, K>,
    call: PolledReceive,
    task: Task,
    me: K::Party,
    // the party at the last item
    start: Snapshot<K::Party>,
    fault: bool,
}

impl<T: Drop, R: Waits, A: Allocator + Copy, J: ChannelName> Receiver<T, R, A, Traced<T, A, J>> {
    /// As of a receiver without a trace. The stream has the party; `cancel` gives it back.
    /// ```
    /// let channel = UnopenedChannel::unbounded(1);
    /// let (tx, rx, mut me) = flume::on(rt).traced::<u64, Brand>(channel)?;
    /// tx.send(&mut me, 7)?;
    /// let mut messages = rx.stream(me);
    /// assert_eq!(rt; block_on(&rt, messages.next())?, Some(7));
    /// let (mut me, _message) = messages.cancel();
    /// assert_eq!(rt; rx.settle(&mut me), Some(0));
    /// ```
    pub fn stream(&self, me: ChannelParty<T, J, A>) -> TracedRecvStream<'_, T, R, J, A>
        ensures start { result.start.value ≡ me }
        ensures call { result.call ≡ record { kind = Kind.Stream; call = None } }
        ensures party { result.me ≡ me }
        ensures can_poll { CanReceive result.start.value result.call.call result.me }
        ensures no_fault { result.fault ≡ false }
    {
        let start = Snapshot::of(&me);
        PartyRecvStream {
            receiver: self,
            call: PolledReceive::new(Kind::Stream),
            task: Task::new(),
            me,
            start,
            fault: false,
        }
    }
}

impl<'a, T: Drop, R: Waits, A: Allocator + Copy, J: ChannelName> PartyRecvStream<
    'a,
    T,
    R,
    A,
    Traced<T, A, J>,
> {
    /// Whether the last poll found no memory to wait: then more may come.
    pub fn fault(&self) -> bool
        ensures fault { result ≡ self.now.fault }
    {
        self.fault
    }

    /// Gives the party back, with what it did since the last item; and a message, if one was handed
    /// over to a poll that waited.
    pub fn cancel(self) -> (ChannelParty<T, J, A>, Option<T>)
        requires can_poll { CanReceive self.start.value self.call.call self.me }
        ensures called { HasMadeCalls self.entry.start.value result.0 [] (got_if result.1) }
        ensures unparked { self.entry.call.call ≡ None
            → (result.0 ≡ self.entry.me) × (result.1 ≡ None) }
    {
        let Self {
            receiver,
            mut call,
            task: _,
            mut me,
            start: _,
            fault: _,
        } = self;
        let message = receiver.shared().leave(&mut me, &mut call);
        (me, message)
    }
}

impl<T: Drop, R: Waits, A: Allocator + Copy, J: ChannelName> Stream
    for PartyRecvStream<'_, T, R, A, Traced<T, A, J>> {
    type Item = T;

    ghost can_poll = { λ stream. CanReceive stream.start.value stream.call.call stream.me };

    ghost yields = { λ _ _ _. ⊤ };

    ghost needs = { λ stream source. source ≡ stream.task.source.id };

    fn poll_next(&mut self, cx: &mut Context<'_>) -> Poll<Option<T>>
        requires can_poll { CanReceive self.old.start.value self.old.call.call self.old.me }
        ensures value { IfReady result (λ _. ⊤) }
        ensures rest { IfReady result (λ item. IfSome item
            (λ message. After (λ _ _. ⊤) message (λ _ _. ⊤))) }
        ensures goes { IfReady result (λ item. OnSome item
            (CanReceive self.new.start.value self.new.call.call self.new.me)) }
        ensures again { OnPending result
            (CanReceive self.new.start.value self.new.call.call self.new.me) }
        ensures same { OnPending result (Within {A = T} (λ _ _. ⊤) (λ _ _. ⊤)) }
        ensures registered { OnPending result
            (Covers cx.new (λ source. source ≡ self.new.task.source.id)) }
        ensures kept { Keeps cx.old cx.new }
        ensures called { IfReady result (λ item. HasMadeCalls self.old.start.value
            self.new.start.value [] (option_to_list item)) }
        ensures answered { IfSome (answer_of_item result self.new.fault)
            (AnswersReceive self.old.start.value self.new.start.value) }
        ensures can_poll { CanReceive self.new.start.value self.new.call.call self.new.me }
        ensures waits { OnPending result (self.new.start ≡ self.old.start) }
        ensures fault { self.new.fault ≡ true → result ≡ Poll.Ready None }
    {
        self.fault = false;
        let shared = self.receiver.shared();
        let Some(answer) = shared.poll_once(&mut self.me, &mut self.call, &self.task, cx) else {
            return Poll::Pending;
        };
        self.start = Snapshot::of(&self.me);
        self.call = PolledReceive::new(Kind::Stream);
        let (item, fault) = as_item(answer);
        self.fault = fault;
        Poll::Ready(item)
    }
}

impl<T, R, A, K> Drop for PartyRecvStream<'_, T, R, A, K>
where
    T: Drop,
    R: Waits,
    A: Allocator + Copy,
    K: Keeper<T, A, Party: Drop>,
{
    fn drop(self) {
        let Self {
            receiver,
            mut call,
            task: _,
            mut me,
            start: _,
            fault: _,
        } = self;
        if let Some(leaves) = call.end() {
            receiver.shared().call_cold(&mut me, leaves);
        }
    }
}
