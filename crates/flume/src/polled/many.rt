//! Polls that send or receive a list of messages.
ghost use Rattle.std.specs.Prelude.{◌≡◌, ◌↔◌, ◌∷◌, ◌+◌, ◌<◌, ℕ, IsTrue, Some, None, Result, Ok};
ghost use Rattle.std.specs.Prelude.{vec_len, vec_capacity};
ghost use Rattle.std.specs.VecDeque.{deque_len};
ghost use Rattle.futures.specs.Task.{Covers, Keeps};
ghost use Rattle.flume_core.specs.declared.error.SendError.{SendError};
ghost use Rattle.flume_calls.specs.declared.polled.send.PolledSend.TheVariants.{Finished, Parked};
ghost use Rattle.flume.specs.ManySendCalls.{LeavesList, PollLeaves};
ghost use Rattle.flume.specs.ManySendPolls.{PollsSends};
ghost use Rattle.flume.specs.ReceivePolls.{HasPolledMany};

use crate::shared::{Shared, SignalBell, Waits};
use crate::signal::Signal;
use crate::task::Task;
use flume_calls::calls::{MoreReceives, SendMany};
use flume_calls::polled::{PolledReceive, PolledSend};
use flume_core::error::{RecvError, SendError, TrySendError};
use flume_keeper::{Kept, NoParty};
use futures::task::Context;
use std::alloc::Allocator;
use std::collections::VecDeque;

pub(crate) type SendListPoll<T, A> = (VecDeque<T, A>, Option<Result<(), SendError<T>>>);

impl<T: Drop, R: Waits, A: Allocator + Copy> Shared<T, R, A> {
    #[inline(never)]
    pub(crate) fn poll_receives(
        &self,
        call: &mut PolledReceive,
        task: &Task,
        cx: &mut Context<'_>,
        mut buffer: Vec<T, A>,
        more: usize,
    ) -> (Vec<T, A>, Option<Result<usize, RecvError>>)
        requires room { vec_len buffer < vec_capacity buffer }
        ensures polled { HasPolledMany A (more + 1) buffer.items call.old result.0.items call.new
            result.1 }
        ensures registered { result.1 ≡ None → Covers cx.new (λ s. s ≡ task.now.source.id) }
        ensures kept { Keeps cx.old cx.new }
    {
        let mut guard = self.lock();
        match self.poll_locked(&mut guard, &mut NoParty, call, task, cx) {
            Some(Ok(message)) => {
                buffer.push_reserved(message);
                let turn = MoreReceives { buffer, most: more };
                let bell = &mut SignalBell { rt: self.rt };
                let (buffer, taken) = guard.make(&mut NoParty, turn, bell);
                (buffer, Some(Ok(taken + 1)))
            }
            Some(Err(error)) => (buffer, Some(Err(error))),
            None => (buffer, None),
        }
    }

    #[inline(never)]
    pub(crate) fn poll_sends(
        &self,
        call: &mut PolledSend<T>,
        task: &Task,
        cx: &mut Context<'_>,
        messages: VecDeque<T, A>,
    ) -> SendListPoll<T, A>
        ensures made { PollsSends A call.old messages.items result.0.items call.new result.1 }
        ensures leaves { PollLeaves call.old messages.items result.0.items result.1 }
        ensures finished { (answer : Result (Unit {0}) (SendError T)) → result.1 ≡ Some answer
            → call.new ≡ Finished }
        ensures parked { result.1 ≡ None → (ticket : ℕ) × (call.new ≡ Parked ticket) }
        ensures registered { result.1 ≡ None → Covers cx.new (λ s. s ≡ task.now.source.id) }
        ensures kept { Keeps cx.old cx.new }
    {
        let mut guard = self.lock();
        let answer = self.poll_locked(&mut guard, &mut NoParty, call, task, cx);
        if !is_sent(&answer) {
            return (messages, answer);
        }
        self.poll_list(&mut guard, call, task, cx, messages)
    }

    fn poll_list(
        &self,
        kept: &mut Kept<T, Signal<A>, A>,
        call: &mut PolledSend<T>,
        task: &Task,
        cx: &mut Context<'_>,
        messages: VecDeque<T, A>,
    ) -> SendListPoll<T, A>
        requires ended { call.old ≡ Finished }
        ensures made { PollsSends A Finished messages.items result.0.items call.new result.1 }
        ensures leaves { LeavesList messages.items result.0.items result.1 }
        ensures finished { (answer : Result (Unit {0}) (SendError T)) → result.1 ≡ Some answer
            → call.new ≡ Finished }
        ensures parked { result.1 ≡ None → (ticket : ℕ) × (call.new ≡ Parked ticket) }
        ensures registered { result.1 ≡ None → Covers cx.new (λ s. s ≡ task.now.source.id) }
        ensures kept { Keeps cx.old cx.new }
    {
        let bell = &mut SignalBell { rt: self.rt };
        match kept.make(&mut NoParty, SendMany { messages }, bell) {
            Ok(()) => (VecDeque::new(self.alloc), Some(Ok(()))),
            Err(TrySendError::Full(rest)) => {
                let (first, behind) = split_first(rest);
                *call = PolledSend::Unsent(first);
                (behind, self.poll_locked(kept, &mut NoParty, call, task, cx))
            }
            Err(TrySendError::Disconnected(rest)) => {
                let (first, behind) = split_first(rest);
                (behind, Some(Err(SendError::Disconnected(first))))
            }
            Err(TrySendError::NoMemory(rest)) => {
                let (first, behind) = split_first(rest);
                (behind, Some(Err(SendError::NoMemory(first))))
            }
        }
    }
}

fn split_first<T, A: Allocator>(mut messages: VecDeque<T, A>) -> (T, VecDeque<T, A>)
    requires some { 0 < deque_len messages }
    ensures items { messages.items ≡ result.0 ∷ result.1.items }
{
    let Some(first) = messages.pop_front() else {
        unreachable!();
    };
    (first, messages)
}

pub(crate) fn is_sent<T>(answer: &Option<Result<(), SendError<T>>>) -> bool
    ensures sent { IsTrue result ↔ (answer.now ≡ Some (Ok tt)) }
{
    matches!(answer, Some(Ok(())))
}
