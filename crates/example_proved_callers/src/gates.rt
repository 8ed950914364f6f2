//! A gate over a channel of one owner, and callers that conclude what became of a message.
ghost use Rattle.std.specs.Prelude.{◌≡◌, Ok, Err};
ghost use Rattle.flume.specs.declared.error.SendTimeoutError.TheVariants.{Timeout};
ghost use Rattle.flume.specs.declared.error.RecvTimeoutError.TheVariants.{Timeout as Late};
ghost use Rattle.example_proved_callers.specs.LocalSends.{Others, IsSent, IsTakenBack};
ghost use Rattle.example_proved_callers.specs.LocalReceives.{IsReceived, IsGivenUp};

use flume::error::{RecvTimeoutError, SendTimeoutError};
use flume_calls::calls::{
    AgainReceive, AgainSend, FirstReceive, FirstSend, ParkReceive, ParkSend, RecvCall, RecvNext,
    SendCall, SendNext,
};
use flume_calls::due::Bell;
use flume_calls::gates::{RecvGate, SendGate, recv_over, send_over};
use flume_calls::locked::Locked;
use flume_calls::single::EndStep;
use flume_model::step::Kind;
use std::alloc::Allocator;
use std::sync::Wait;

/// What another does while the call waits.
#[derive(Clone, Copy, Drop)]
pub enum Other {
    TryRecv,
    DropSender,
}

/// Counts its rings.
#[derive(Drop)]
pub struct Counter {
    pub rings: u64,
}

impl Bell<u64> for Counter {
    ghost rings = { λ old ticket signal new. Unit {0} };

    fn ring(&mut self, _ticket: u64, _signal: &u64) {
        self.rings = self.rings.wrapping_add(1);
    }
}

/// The channel, what another does while the call waits, and what that one received.
#[derive(Drop)]
pub struct LocalGate<T, A: Allocator> {
    pub locked: Locked<T, u64, A>,
    pub bell: Counter,
    pub other: Option<Other>,
    pub received: Option<T>,
}

impl<T: Drop, A: Allocator + Copy> LocalGate<T, A> {
    /// A new channel of this capacity.
    pub fn new(alloc: A, capacity: Option<usize>, other: Option<Other>) -> Self {
        LocalGate {
            locked: Locked::new(alloc, capacity),
            bell: Counter { rings: 0 },
            other,
            received: None,
        }
    }

    fn let_other(&mut self) -> bool
        ensures does { Others A self.old.locked self.new.locked }
    {
        match self.other.take() {
            None => return true,
            Some(Other::DropSender) => {
                self.locked.make(EndStep::DropSender, &mut self.bell);
            }
            Some(Other::TryRecv) => {
                if let RecvNext::Done(Ok(message)) = self
                    .locked
                    .make(FirstReceive, &mut self.bell)
                {
                    self.received = Some(message);
                }
            }
        }
        false
    }
}

impl<T: Drop, A: Allocator + Copy> SendGate<T> for LocalGate<T, A> {
    ghost use Rattle.std.specs.Prelude.{◌≡◌};
    ghost use Rattle.flume_model.specs.declared.step.Step.TheVariants.{TrySend, Send};
    ghost use Rattle.flume_calls.specs.SendTurns.{after_try_send, after_send, after_parked_send};
    ghost use Rattle.flume_calls.specs.SendTurns.{step_of_parked_send};
    ghost use Rattle.example_proved_callers.specs.LocalSends.{Makes, Others};

    type Waiter = ();

    type Signal = u64;

    ghost first_turn = { λ old message new answer.
        Makes A (TrySend message) after_try_send old.locked new.locked answer };

    ghost makes = { λ old new answer. new.locked ≡ old.locked };

    ghost parking_turn = { λ old message new answer.
        Makes A (Send message) after_send old.locked new.locked answer };

    ghost parked_turn = { λ old ticket last new answer. Makes A (step_of_parked_send ticket last)
        (after_parked_send ticket last) old.locked new.locked answer };

    ghost waits = { λ old new answer. Others A old.locked new.locked };

    fn first(&mut self, message: T) -> SendNext<T> {
        self.locked.make(FirstSend { message }, &mut self.bell)
    }

    fn arm(&mut self) -> Option<((), u64)> {
        Some(((), 11))
    }

    fn park(&mut self, message: T, signal: u64) -> SendNext<T> {
        self.locked
            .make(ParkSend { message, signal }, &mut self.bell)
    }

    fn again(&mut self, call: SendCall, last: bool) -> SendNext<T> {
        let signal = None;
        self.locked
            .make(AgainSend { call, last, signal }, &mut self.bell)
    }

    fn wait(&mut self, _waiter: &()) -> bool {
        self.let_other()
    }
}

impl<T: Drop, A: Allocator + Copy> RecvGate<T> for LocalGate<T, A> {
    ghost use Rattle.std.specs.Prelude.{◌≡◌, ⊤};
    ghost use Rattle.flume_model.specs.declared.step.Kind.TheVariants.{Block};
    ghost use Rattle.flume_model.specs.declared.step.Step.TheVariants.{TryRecv, Recv};
    ghost use Rattle.flume_calls.specs.ReceiveTurns.{after_try_recv, after_recv};
    ghost use Rattle.flume_calls.specs.ReceiveTurns.{step_of_parked_receive};
    ghost use Rattle.flume_calls.specs.ReceiveTurns.{after_parked_receive};
    ghost use Rattle.example_proved_callers.specs.LocalSends.{Makes, Others};

    type Waiter = ();

    type Signal = u64;

    ghost first_turn = { λ old new answer.
        Makes A TryRecv after_try_recv old.locked new.locked answer };

    ghost makes = { λ old new answer. new.locked ≡ old.locked };

    ghost parking_turn = { λ old new answer.
        Makes A (Recv Block) after_recv old.locked new.locked answer };

    ghost parked_turn = { λ old ticket last new answer. Makes A (step_of_parked_receive ticket last)
        (after_parked_receive ticket last) old.locked new.locked answer };

    ghost waits = { λ old new answer. Others A old.locked new.locked };

    ghost can_park = { λ _. ⊤ };

    fn first(&mut self) -> RecvNext<T> {
        self.locked.make(FirstReceive, &mut self.bell)
    }

    fn arm(&mut self) -> Option<((), u64)> {
        Some(((), 11))
    }

    fn park(&mut self, signal: u64) -> RecvNext<T> {
        let kind = Kind::Block;
        self.locked
            .make(ParkReceive { kind, signal }, &mut self.bell)
    }

    fn again(&mut self, call: RecvCall, last: bool) -> RecvNext<T> {
        let signal = None;
        self.locked
            .make(AgainReceive { call, last, signal }, &mut self.bell)
    }

    fn wait(&mut self, _waiter: &()) -> bool {
        self.let_other()
    }
}

/// A send through the gate. `Timeout`: its last step took the message back.
pub fn send_through<T: Drop, A: Allocator + Copy, R: Wait>(
    rt: &R,
    gate: &mut LocalGate<T, A>,
    message: T,
) -> Result<(), SendTimeoutError<T>>
    ensures is_sent { result ≡ Ok tt → IsSent A message gate.old.locked gate.new.locked }
    ensures is_taken_back { (back : T) → result ≡ Err (Timeout back)
        → IsTakenBack A message back gate.old.locked gate.new.locked }
{
    gate.locked.facts();
    send_over(rt, gate, message)
}

/// A receive through the gate. `Timeout`: its last step withdrew it, with no message.
pub fn receive_through<T: Drop, A: Allocator + Copy, R: Wait>(
    rt: &R,
    gate: &mut LocalGate<T, A>,
) -> Result<T, RecvTimeoutError>
    ensures is_received { (message : T) → result ≡ Ok message
        → IsReceived A message gate.old.locked gate.new.locked }
    ensures is_given_up { result ≡ Err Late → IsGivenUp A gate.old.locked gate.new.locked }
{
    recv_over(rt, gate)
}
