//! The turns of a receive.
ghost use Rattle.std.specs.Prelude.{◌≡◌};
ghost use Rattle.flume_calls.specs.Turns.{Turned};
ghost use Rattle.flume_calls.specs.Batches.{IsOneStep, by_step};
ghost use Rattle.flume_calls.specs.ReceiveTurns.{IsFirstAnswer, IsParkingAnswer, IsParkedAnswer};
ghost use Rattle.flume_calls.specs.ReceiveTurns.{HadMemory};
ghost use Rattle.flume_calls.specs.ReceiveTurns.{after_try_recv, after_recv, after_parked_receive};
ghost use Rattle.flume_calls.specs.ReceiveTurns.{step_of_parked_receive};
ghost use Rattle.flume_calls.specs.ReceiveOutcomes.{FirstReceiveOutcome, ParkReceiveOutcome};
ghost use Rattle.flume_calls.specs.ReceiveOutcomes.{AgainReceiveOutcome};

use crate::turn::Turn;
use flume_core::chan::Chan;
use flume_core::error::RecvTimeoutError::{self, Disconnected, NoMemory, Timeout};
use flume_model::step::{Kind, Reply, Step};
use std::alloc::Allocator;
use std::marker::Model;

/// A parked receive. The caller waits between its turns.
#[derive(Drop)]
pub struct RecvCall {
    ticket: u64,
}

impl Model for RecvCall {
    ghost use Rattle.std.specs.Prelude.{ℕ};

    ghost Value = { ℕ };

    ghost view = { λ call. call.ticket };
}

/// What a turn of a receive leads to.
#[derive(Drop)]
pub enum RecvNext<T> {
    Done(Result<T, RecvTimeoutError>),
    /// There is no message, and nothing was done: the call may park.
    NeedSignal,
    Park(RecvCall),
    /// Out of memory; it is parked as before. Only the abstract channel leads to it, not a `Chan`.
    Refused(RecvCall),
}

impl RecvCall {
    /// Its ticket.
    #[inline(always)]
    pub fn ticket(&self) -> u64
        ensures ticket { result ≡ self.now }
    {
        self.ticket
    }

    /// The first turn, `Chan::try_recv`, which doesn't park. `NeedSignal`: no message, in an open
    /// channel. `Done(Err(Disconnected))`: none, in a closed one. Doesn't allocate.
    /// ```
    /// let mut chan: Chan<u64, u32> = Chan::new(alloc, None);
    /// RecvCall::first(&mut chan);        // NeedSignal
    /// chan.try_send(5);
    /// RecvCall::first(&mut chan);        // Done(Ok(5))
    /// ```
    #[inline(always)]
    pub fn first<T: Drop, S: Drop, A: Allocator + Copy>(chan: &mut Chan<T, S, A>) -> RecvNext<T>
        ensures turn { Turned {A = A} Step.TryRecv after_try_recv chan.old chan.new result }
        ensures answers { IsFirstAnswer result }
        ensures not_refused { HadMemory result }
        ensures outcome { FirstReceiveOutcome chan.old chan.new result }
    {
        FirstReceive.apply(chan)
    }

    /// The turn that may park, `Chan::recv`. `Done(Err(Disconnected))`: no message, in a closed
    /// channel. `Done(Err(NoMemory))`: out of memory, or every ticket was issued.
    /// ```
    /// let mut chan: Chan<u64, u32> = Chan::new(alloc, None);
    /// RecvCall::park(Kind::Block, 10, &mut chan);      // Park(call), with the signal 10
    /// ```
    pub fn park<T: Drop, S: Drop, A: Allocator + Copy>(
        kind: Kind,
        signal: S,
        chan: &mut Chan<T, S, A>,
    ) -> RecvNext<T>
        ensures turn { Turned {A = A} (Step.Recv kind) after_recv chan.old chan.new result }
        ensures answers { IsParkingAnswer result }
        ensures outcome { ParkReceiveOutcome kind signal chan.old chan.new result }
    {
        ParkReceive { kind, signal }.apply(chan)
    }

    /// A later turn: `Chan::poll`, in which a given signal replaces the one that it left, or
    /// `Chan::withdraw` if it is the `last`, as at its deadline. `Disconnected`: no message in a
    /// closed channel, or a spent ticket. `Timeout`: it withdrew in an open one. Doesn't allocate.
    /// ```
    /// let mut chan: Chan<u64, u32> = Chan::new(alloc, None);
    /// if let RecvNext::Park(call) = RecvCall::park(Kind::Block, 10, &mut chan) {
    ///     chan.try_send(5);
    ///     call.again(&mut chan, true, None);           // Done(Ok(5))
    /// }
    /// ```
    pub fn again<T: Drop, S: Drop, A: Allocator + Copy>(
        self,
        chan: &mut Chan<T, S, A>,
        last: bool,
        signal: Option<S>,
    ) -> RecvNext<T>
        ensures turn { Turned {A = A} (step_of_parked_receive self last)
            (after_parked_receive self last) chan.old chan.new result }
        ensures answers { IsParkedAnswer self last result }
        ensures not_refused { HadMemory result }
        ensures outcome { AgainReceiveOutcome self last signal chan.old chan.new result }
    {
        let call = self;
        AgainReceive { call, last, signal }.apply(chan)
    }
}

/// `RecvCall::first`, as a value.
#[derive(Clone, Copy, Drop)]
pub struct FirstReceive;

impl<T: Drop, S: Drop, A: Allocator + Copy> Turn<T, S, A> for FirstReceive {
    ghost use Rattle.flume_model.specs.declared.step.Step.TheVariants.{TryRecv};

    type Answer = RecvNext<T>;

    ghost does = { λ _ old new next. Turned {A = A} TryRecv after_try_recv old new next
        × FirstReceiveOutcome old new next };

    ghost makes = { λ _. IsOneStep TryRecv after_try_recv };

    ghost leads = { λ _ old new next does. by_step does.0 };

    ghost answers = { λ _ next. IsFirstAnswer next × HadMemory next };

    #[inline(always)]
    fn apply(self, chan: &mut Chan<T, S, A>) -> RecvNext<T> {
        match chan.try_recv() {
            Reply::Got(message) => RecvNext::Done(Ok(message)),
            Reply::Empty => RecvNext::NeedSignal,
            Reply::Ended => RecvNext::Done(Err(Disconnected)),
            _ => unreachable!(),
        }
    }
}

/// `RecvCall::park`, as a value.
#[derive(Drop)]
pub struct ParkReceive<S> {
    pub kind: Kind,
    pub signal: S,
}

impl<T: Drop, S: Drop, A: Allocator + Copy> Turn<T, S, A> for ParkReceive<S> {
    ghost use Rattle.flume_model.specs.declared.step.Step.TheVariants.{Recv};

    type Answer = RecvNext<T>;

    ghost does = { λ turn old new next. Turned {A = A} (Recv turn.kind) after_recv old new next
        × ParkReceiveOutcome turn.kind turn.signal old new next };

    ghost makes = { λ turn. IsOneStep (Recv turn.kind) after_recv };

    ghost leads = { λ _ old new next does. by_step does.0 };

    ghost answers = { λ _. IsParkingAnswer };

    fn apply(self, chan: &mut Chan<T, S, A>) -> RecvNext<T> {
        match chan.recv(self.kind, self.signal) {
            Reply::Got(message) => RecvNext::Done(Ok(message)),
            Reply::Parked(ticket) => RecvNext::Park(RecvCall { ticket }),
            Reply::Ended => RecvNext::Done(Err(Disconnected)),
            Reply::NoMemory(_) | Reply::Spent(_) => RecvNext::Done(Err(NoMemory)),
            _ => unreachable!(),
        }
    }
}

/// `RecvCall::again`, as a value.
#[derive(Drop)]
pub struct AgainReceive<S> {
    pub call: RecvCall,
    pub last: bool,
    pub signal: Option<S>,
}

impl<T: Drop, S: Drop, A: Allocator + Copy> Turn<T, S, A> for AgainReceive<S> {
    type Answer = RecvNext<T>;

    ghost does = { λ turn old new next.
        Turned {A = A} (step_of_parked_receive turn.call turn.last)
        (after_parked_receive turn.call turn.last) old new next
        × AgainReceiveOutcome turn.call turn.last turn.signal old new next };

    ghost makes = { λ turn. IsOneStep (step_of_parked_receive turn.call turn.last)
        (after_parked_receive turn.call turn.last) };

    ghost leads = { λ _ old new next does. by_step does.0 };

    ghost answers = { λ turn next. IsParkedAnswer turn.call turn.last next × HadMemory next };

    // `NoTicket` comes only if the call parked in another channel.
    fn apply(self, chan: &mut Chan<T, S, A>) -> RecvNext<T> {
        let AgainReceive { call, last, signal } = self;
        if last {
            match chan.withdraw(call.ticket) {
                Reply::Got(message) => RecvNext::Done(Ok(message)),
                Reply::Gone { closed, .. } if closed => RecvNext::Done(Err(Disconnected)),
                Reply::Gone { .. } => RecvNext::Done(Err(Timeout)),
                Reply::NoTicket => RecvNext::Done(Err(Disconnected)),
                _ => unreachable!(),
            }
        } else {
            match chan.poll(call.ticket, signal) {
                Reply::Got(message) => RecvNext::Done(Ok(message)),
                Reply::Waiting => RecvNext::Park(call),
                Reply::Ended | Reply::NoTicket => RecvNext::Done(Err(Disconnected)),
                _ => unreachable!(),
            }
        }
    }
}
