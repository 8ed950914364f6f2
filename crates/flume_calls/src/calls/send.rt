//! The turns of a send.
ghost use Rattle.std.specs.Prelude.{◌≡◌, ◌↔◌, IsTrue};
ghost use Rattle.flume_core.specs.Waiting.{IsHeldBack};
ghost use Rattle.flume_calls.specs.Turns.{Turned};
ghost use Rattle.flume_calls.specs.Batches.{IsOneStep, by_step};
ghost use Rattle.flume_calls.specs.SendTurns.{IsFirstAnswer, IsParkingAnswer, IsParkedAnswer};
ghost use Rattle.flume_calls.specs.SendTurns.{step_of_parked_send};
ghost use Rattle.flume_calls.specs.SendTurns.{after_try_send, after_send, after_parked_send};
ghost use Rattle.flume_calls.specs.SendOutcomes.{FirstSendOutcome, ParkSendOutcome};
ghost use Rattle.flume_calls.specs.SendOutcomes.{AgainSendOutcome};

use crate::turn::Turn;
use flume_core::chan::Chan;
use flume_core::error::SendTimeoutError::{self, Disconnected, NoMemory, Timeout};
use flume_model::step::{Reply, Step};
use std::alloc::Allocator;
use std::marker::Model;

/// A parked send. The caller waits between its turns.
#[derive(Drop)]
pub struct SendCall {
    ticket: u64,
}

impl Model for SendCall {
    ghost use Rattle.std.specs.Prelude.{ℕ};

    ghost Value = { ℕ };

    ghost view = { λ call. call.ticket };
}

/// What a turn of a send leads to.
#[derive(Drop)]
pub enum SendNext<T> {
    Done(Result<(), SendTimeoutError<T>>),
    /// The channel is full, and nothing was done: the call may park.
    NeedSignal(T),
    Park(SendCall),
}

impl SendCall {
    /// Its ticket.
    #[inline(always)]
    pub fn ticket(&self) -> u64
        ensures ticket { result ≡ self.now }
    {
        self.ticket
    }

    /// The first turn, `Chan::try_send`, which doesn't park. `Done(Err(Disconnected))`: the channel
    /// is closed. `Done(Err(NoMemory))`: the queue couldn't grow.
    /// ```
    /// let mut chan: Chan<u64, u32> = Chan::new(alloc, Some(1));
    /// SendCall::first(1, &mut chan);     // Done(Ok(()))
    /// SendCall::first(2, &mut chan);     // NeedSignal(2)
    /// ```
    #[inline(always)]
    pub fn first<T: Drop, S: Drop, A: Allocator + Copy>(
        message: T,
        chan: &mut Chan<T, S, A>,
    ) -> SendNext<T>
        ensures turn { Turned {A = A} (Step.TrySend message) after_try_send
            chan.old chan.new result }
        ensures answers { IsFirstAnswer message result }
        ensures outcome { FirstSendOutcome message chan.old chan.new result }
    {
        FirstSend { message }.apply(chan)
    }

    /// The turn that may park, `Chan::send`. `Done(Err(Disconnected))`: the channel is closed.
    /// `Done(Err(NoMemory))`: out of memory, or every ticket was issued.
    /// ```
    /// let mut chan: Chan<u64, u32> = Chan::new(alloc, Some(0));
    /// SendCall::park(7, 10, &mut chan);  // Park(call), with the signal 10
    /// ```
    pub fn park<T: Drop, S: Drop, A: Allocator + Copy>(
        message: T,
        signal: S,
        chan: &mut Chan<T, S, A>,
    ) -> SendNext<T>
        ensures turn { Turned {A = A} (Step.Send message) after_send chan.old chan.new result }
        ensures answers { IsParkingAnswer message result }
        ensures outcome { ParkSendOutcome A message signal chan.old chan.new result }
    {
        ParkSend { message, signal }.apply(chan)
    }

    /// A later turn: `Chan::poll_send`, in which a given signal replaces the one that it left, or
    /// `Chan::withdraw_send` if it is the `last`, as at its deadline. `Ok`: taken in, or the ticket
    /// is spent. `Timeout`: it withdrew. `Disconnected`: blocked, but closed. Doesn't allocate.
    /// ```
    /// let mut chan: Chan<u64, u32> = Chan::new(alloc, Some(0));
    /// if let SendNext::Park(call) = SendCall::park(7, 10, &mut chan) {
    ///     call.again(&mut chan, true, None);           // Done(Err(Timeout(7)))
    /// }
    /// ```
    pub fn again<T: Drop, S: Drop, A: Allocator + Copy>(
        self,
        chan: &mut Chan<T, S, A>,
        last: bool,
        signal: Option<S>,
    ) -> SendNext<T>
        ensures turn { Turned {A = A} (step_of_parked_send self last)
            (after_parked_send self last) chan.old chan.new result }
        ensures answers { IsParkedAnswer self last result }
        ensures outcome { AgainSendOutcome A self last signal chan.old chan.new result }
    {
        let call = self;
        AgainSend { call, last, signal }.apply(chan)
    }

    /// Whether it is blocked in an open channel. No step; doesn't allocate.
    #[inline(always)]
    pub fn would_wait<T: Drop, S: Drop, A: Allocator + Copy>(&self, chan: &Chan<T, S, A>) -> bool
        ensures waits { IsTrue result ↔ IsHeldBack self.now chan.now }
    {
        chan.parked_send_would_wait(self.ticket)
    }
}

/// `SendCall::first`, as a value.
#[derive(Drop)]
pub struct FirstSend<T> {
    pub message: T,
}

impl<T: Drop, S: Drop, A: Allocator + Copy> Turn<T, S, A> for FirstSend<T> {
    ghost use Rattle.flume_model.specs.declared.step.Step.TheVariants.{TrySend};

    type Answer = SendNext<T>;

    ghost does = { λ turn old new next.
        Turned {A = A} (TrySend turn.message) after_try_send old new next
        × FirstSendOutcome turn.message old new next };

    ghost makes = { λ turn. IsOneStep (TrySend turn.message) after_try_send };

    ghost leads = { λ _ old new next does. by_step does.0 };

    ghost answers = { λ turn. IsFirstAnswer turn.message };

    #[inline(always)]
    fn apply(self, chan: &mut Chan<T, S, A>) -> SendNext<T> {
        match chan.try_send(self.message) {
            Reply::Sent { .. } => SendNext::Done(Ok(())),
            Reply::Full(message) => SendNext::NeedSignal(message),
            Reply::Closed(message) => SendNext::Done(Err(Disconnected(message))),
            Reply::NoMemory(Some(message)) => SendNext::Done(Err(NoMemory(message))),
            _ => unreachable!(),
        }
    }
}

/// `SendCall::park`, as a value.
#[derive(Drop)]
pub struct ParkSend<T, S> {
    pub message: T,
    pub signal: S,
}

impl<T: Drop, S: Drop, A: Allocator + Copy> Turn<T, S, A> for ParkSend<T, S> {
    ghost use Rattle.flume_model.specs.declared.step.Step.TheVariants.{Send};

    type Answer = SendNext<T>;

    ghost does = { λ turn old new next.
        Turned {A = A} (Send turn.message) after_send old new next
        × ParkSendOutcome A turn.message turn.signal old new next };

    ghost makes = { λ turn. IsOneStep (Send turn.message) after_send };

    ghost leads = { λ _ old new next does. by_step does.0 };

    ghost answers = { λ turn. IsParkingAnswer turn.message };

    fn apply(self, chan: &mut Chan<T, S, A>) -> SendNext<T> {
        match chan.send(self.message, self.signal) {
            Reply::Sent { .. } => SendNext::Done(Ok(())),
            Reply::Pending(ticket) => SendNext::Park(SendCall { ticket }),
            Reply::Closed(message) => SendNext::Done(Err(Disconnected(message))),
            Reply::NoMemory(Some(message)) | Reply::Spent(Some(message)) => {
                SendNext::Done(Err(NoMemory(message)))
            }
            _ => unreachable!(),
        }
    }
}

/// `SendCall::again`, as a value.
#[derive(Drop)]
pub struct AgainSend<S> {
    pub call: SendCall,
    pub last: bool,
    pub signal: Option<S>,
}

impl<T: Drop, S: Drop, A: Allocator + Copy> Turn<T, S, A> for AgainSend<S> {
    type Answer = SendNext<T>;

    ghost does = { λ turn old new next.
        Turned {A = A} (step_of_parked_send turn.call turn.last)
        (after_parked_send turn.call turn.last) old new next
        × AgainSendOutcome A turn.call turn.last turn.signal old new next };

    ghost makes = { λ turn. IsOneStep (step_of_parked_send turn.call turn.last)
        (after_parked_send turn.call turn.last) };

    ghost leads = { λ _ old new next does. by_step does.0 };

    ghost answers = { λ turn. IsParkedAnswer turn.call turn.last };

    // `NoTicket` comes only if the call parked in another channel. No message can be handed back.
    fn apply(self, chan: &mut Chan<T, S, A>) -> SendNext<T> {
        let AgainSend { call, last, signal } = self;
        if last {
            match chan.withdraw_send(call.ticket) {
                Reply::Accepted => SendNext::Done(Ok(())),
                Reply::NoTicket => SendNext::Done(Ok(())),
                Reply::Returned { message, closed } if closed => {
                    SendNext::Done(Err(Disconnected(message)))
                }
                Reply::Returned { message, .. } => SendNext::Done(Err(Timeout(message))),
                _ => unreachable!(),
            }
        } else {
            match chan.poll_send(call.ticket, signal) {
                Reply::Accepted => SendNext::Done(Ok(())),
                Reply::NoTicket => SendNext::Done(Ok(())),
                Reply::Waiting => SendNext::Park(call),
                Reply::Returned { message, .. } => SendNext::Done(Err(Disconnected(message))),
                _ => unreachable!(),
            }
        }
    }
}
