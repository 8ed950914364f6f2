//! How far an open call is, and the steps that it may make.
ghost use Rattle.std.specs.Prelude.{◌≡◌, ℕ, Option};
ghost use Rattle.judge_calls.specs.Calls.{first_step, next_step, alternative_step};
ghost use Rattle.judge_calls.specs.Calls.{stage_after};
ghost use Rattle.judge_calls.specs.Calls.{parking_step, is_send, message_of};

use crate::call::{Answer, Call, Messages};
use flume_model::step::{Kind, Reply, Step};
use std::alloc::{Allocator, Global};

/// How far an open call is, with its ticket if it is parked. `Tried`: it found no room or no
/// message, and may park. `Refused`: it was answered `NoMemory`, and withdraws.
#[derive(Drop)]
pub enum Stage<T, A: Allocator = Global> {
    Begun,
    Tried,
    Parked(u64),
    Refused(u64),
    Answered(Answer<T, A>),
}

impl<T: Copy> Call<T> {
    /// The message that the call sends.
    pub fn message(&self) -> Option<T>
        ensures message { result ≡ message_of self.now }
    {
        match *self {
            Call::Send(m) | Call::SendTimeout(m) | Call::SendAsync(m) | Call::TrySend(m) => Some(m),
            _ => None,
        }
    }

    /// Its first step, and its only one if it doesn't wait.
    pub fn first_step(&self) -> Step<T>
        ensures step { result ≡ first_step self.now }
    {
        match *self {
            Call::Send(m) | Call::SendTimeout(m) | Call::TrySend(m) => Step::TrySend(m),
            Call::SendAsync(m) => Step::Send(m),
            Call::Recv | Call::RecvTimeout | Call::TryRecv => Step::TryRecv,
            Call::RecvAsync => Step::Recv(Kind::Plain),
            Call::Drain => Step::Drain,
            Call::CloneSender => Step::CloneSender,
            Call::CloneReceiver => Step::CloneReceiver,
            Call::DropSender => Step::DropSender,
            Call::DropReceiver => Step::DropReceiver,
            Call::SetCapacity(capacity) => Step::SetCapacity(capacity),
            Call::Len => Step::Len,
            Call::IsEmpty => Step::IsEmpty,
            Call::IsFull => Step::IsFull,
            Call::Capacity => Step::Capacity,
            Call::SenderCount => Step::SenderCount,
            Call::ReceiverCount => Step::ReceiverCount,
            Call::IsDisconnected => Step::IsDisconnected,
        }
    }

    /// The step that the call makes next, if any.
    pub fn next_step<A: Allocator>(&self, stage: &Stage<T, A>) -> Option<Step<T>>
        ensures step { result ≡ next_step self.now stage.now }
    {
        match stage {
            Stage::Begun => Some(self.first_step()),
            Stage::Tried => self.parking_step(),
            Stage::Parked(ticket) if self.is_send() => Some(Step::PollSend(*ticket)),
            Stage::Parked(ticket) => Some(Step::Poll(*ticket)),
            Stage::Refused(ticket) => Some(Step::Withdraw(*ticket)),
            Stage::Answered(_) => None,
        }
    }

    /// The step that it may make instead: at its deadline, as it is dropped, or without a waker.
    pub fn alternative_step<A: Allocator>(&self, stage: &Stage<T, A>) -> Option<Step<T>>
        ensures step { result ≡ alternative_step self.now stage.now }
    {
        match (self, stage) {
            (Call::SendAsync(m), Stage::Begun) => Some(Step::TrySend(*m)),
            (Call::RecvAsync, Stage::Begun | Stage::Tried) => Some(Step::TryRecv),
            (Call::SendTimeout(_) | Call::SendAsync(_), Stage::Parked(ticket)) => {
                Some(Step::WithdrawSend(*ticket))
            }
            (Call::RecvTimeout | Call::RecvAsync, Stage::Parked(ticket)) => {
                Some(Step::Withdraw(*ticket))
            }
            _ => None,
        }
    }

    fn parking_step(&self) -> Option<Step<T>>
        ensures step { result ≡ parking_step self.now }
    {
        match *self {
            Call::Send(m) | Call::SendTimeout(m) => Some(Step::Send(m)),
            Call::Recv | Call::RecvTimeout => Some(Step::Recv(Kind::Block)),
            Call::RecvAsync => Some(Step::Recv(Kind::Plain)),
            _ => None,
        }
    }

    fn is_send(&self) -> bool
        ensures send { result ≡ is_send self.now }
    {
        matches!(
            *self,
            Call::Send(_) | Call::SendTimeout(_) | Call::SendAsync(_)
        )
    }
}

/// The stage after this reply.
pub fn stage_after<T: Copy + Drop, A: Allocator + Copy>(
    call: &Call<T>,
    stage: Stage<T, A>,
    reply: Reply<T, A>,
) -> Stage<T, A>
    ensures stage { result ≡ stage_after call.now stage reply }
{
    match reply {
        Reply::Waiting => stage,
        Reply::Pending(ticket) => Stage::Parked(ticket),
        Reply::Parked(ticket) => Stage::Parked(ticket),
        Reply::Full(_) => after_full(call),
        Reply::Empty => after_empty(call),
        Reply::NoMemory(_) => after_no_memory(call, stage),
        Reply::NoTicket => after_no_ticket(call, stage),
        Reply::Returned { closed, .. } => after_returned(call, closed),
        Reply::Gone { closed, .. } => after_gone(call, stage, closed),
        Reply::Sent { .. } => Stage::Answered(Answer::Sent),
        Reply::Accepted => Stage::Answered(Answer::Sent),
        Reply::Closed(_) => Stage::Answered(Answer::Disconnected),
        Reply::Ended => Stage::Answered(Answer::Disconnected),
        Reply::Spent(_) => Stage::Answered(Answer::NoMemory),
        Reply::Got(message) => Stage::Answered(Answer::Got(message)),
        Reply::Drained(list) => Stage::Answered(Answer::Drained(Messages::new(list))),
        Reply::Done => Stage::Answered(Answer::Done),
        Reply::NoEnd => Stage::Answered(Answer::NoEnd),
        Reply::CountFull => Stage::Answered(Answer::CountFull),
        Reply::Number(number) => Stage::Answered(Answer::Number(number)),
        Reply::Flag(flag) => Stage::Answered(Answer::Flag(flag)),
        Reply::Capacity(capacity) => Stage::Answered(Answer::Capacity(capacity)),
        Reply::Unbounded => Stage::Answered(Answer::Unbounded),
    }
}

fn after_full<T, A: Allocator>(call: &Call<T>) -> Stage<T, A>
    ensures stage { (stage : Stage T A) (back : T)
        → result ≡ stage_after call.now stage (Reply.Full back) }
{
    match call {
        Call::TrySend(_) => Stage::Answered(Answer::Full),
        _ => Stage::Tried,
    }
}

fn after_empty<T, A: Allocator>(call: &Call<T>) -> Stage<T, A>
    ensures stage { (stage : Stage T A) → result ≡ stage_after call.now stage Reply.Empty }
{
    match call {
        Call::TryRecv => Stage::Answered(Answer::Empty),
        _ => Stage::Tried,
    }
}

fn after_no_memory<T: Drop, A: Allocator>(call: &Call<T>, stage: Stage<T, A>) -> Stage<T, A>
    ensures stage { (back : Option T)
        → result ≡ stage_after call.now stage (Reply.NoMemory back) }
{
    match (call, stage) {
        (Call::RecvAsync, Stage::Parked(ticket)) => Stage::Parked(ticket),
        (_, Stage::Parked(ticket)) => Stage::Refused(ticket),
        _ => Stage::Answered(Answer::NoMemory),
    }
}

// The ticket of an open call isn't live only once both sides are disconnected.
fn after_no_ticket<T: Copy + Drop, A: Allocator>(call: &Call<T>, stage: Stage<T, A>) -> Stage<T, A>
    ensures stage { result ≡ stage_after call.now stage Reply.NoTicket }
{
    match stage {
        Stage::Refused(_) => Stage::Answered(Answer::NoMemory),
        _ if call.is_send() => Stage::Answered(Answer::Sent),
        _ => Stage::Answered(Answer::Disconnected),
    }
}

fn after_returned<T, A: Allocator>(call: &Call<T>, closed: bool) -> Stage<T, A>
    ensures stage { (stage : Stage T A) (back : T)
        → result ≡ stage_after call.now stage (Reply.Returned back closed) }
{
    match call {
        _ if closed => Stage::Answered(Answer::Disconnected),
        Call::SendTimeout(_) => Stage::Answered(Answer::Timeout),
        _ => Stage::Answered(Answer::NoMemory),
    }
}

fn after_gone<T: Drop, A: Allocator>(
    call: &Call<T>,
    stage: Stage<T, A>,
    closed: bool,
) -> Stage<T, A>
    ensures stage { (filled : Option ℕ)
        → result ≡ stage_after call.now stage (Reply.Gone closed filled) }
{
    match (call, stage) {
        (Call::RecvTimeout, Stage::Parked(_)) if closed => Stage::Answered(Answer::Disconnected),
        (Call::RecvTimeout, Stage::Parked(_)) => Stage::Answered(Answer::Timeout),
        _ => Stage::Answered(Answer::NoMemory),
    }
}
