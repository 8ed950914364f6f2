//! A receive through a gate.
ghost use Rattle.std.specs.Prelude.{◌≡◌, ◌≢◌, ◌⊎◌, ℕ, Bool, true, Result, Err, IfSome, is_some};
ghost use Rattle.flume_calls.specs.declared.calls.receive.RecvNext.{RecvNext};
ghost use Rattle.flume_calls.specs.ReceiveTurns.{IsFirstAnswer, IsParkingAnswer, IsParkedAnswer};
ghost use Rattle.flume_calls.specs.ReceiveGates.{got_or_no_memory, IsNeverRefused, EndsUnparked};
ghost use Rattle.flume_calls.specs.ReceiveGates.{ParkedReceive, WholeReceive};

use crate::calls::{RecvCall, RecvNext};
use flume_core::error::RecvTimeoutError::{self, NoMemory};
use std::sync::Wait;

/// How a blocking receive reaches its channel. Relations are from the gate before to that after.
pub trait RecvGate<T> {
    /// What the call waits on.
    type Waiter: Drop;

    /// The signal that the call leaves as it parks.
    type Signal: Drop;

    ghost first_turn: { Self → Self → RecvNext T → Type 0 };

    ghost makes: { Self → Self → Bool → Type 0 };

    ghost parking_turn: { Self → Self → RecvNext T → Type 0 };

    // With the ticket, and whether it is the last turn.
    ghost parked_turn: { Self → ℕ → Bool → Self → RecvNext T → Type 0 };

    ghost waits: { Self → Self → Bool → Type 0 };

    // Holds from `arm` on until the call has ended.
    ghost can_park: { Self → Type 0 };

    /// The first turn. `Done(Err(NoMemory))`: there is a message, but no memory to hand it out.
    fn first(&mut self) -> RecvNext<T>
        ensures does { first_turn self.old self.new result }
        ensures answers { IsFirstAnswer result };

    /// Makes the waiter and its signal. `None`: out of memory.
    fn arm(&mut self) -> Option<(Self::Waiter, Self::Signal)>
        ensures does { makes self.old self.new (is_some result) }
        ensures ready { IfSome result (λ _. can_park self.new) };

    /// The turn that may park.
    fn park(&mut self, signal: Self::Signal) -> RecvNext<T>
        requires ready { can_park self.old }
        ensures does { parking_turn self.old self.new result }
        ensures answers { IsParkingAnswer result }
        ensures ready { (ticket : ℕ) → result ≡ RecvNext.Park ticket → can_park self.new };

    /// A turn of the parked call, the `last` one at its deadline, or if a turn was out of memory.
    fn again(&mut self, call: RecvCall, last: bool) -> RecvNext<T>
        requires ready { can_park self.old }
        ensures does { parked_turn self.old call last self.new result }
        ensures answers { IsParkedAnswer call last result }
        ensures ready { (ticket : ℕ)
            → (result ≡ RecvNext.Park ticket) ⊎ (result ≡ RecvNext.Refused ticket)
            → can_park self.new };

    /// Waits for a wake or for the deadline. True, at once, if the deadline is reached.
    fn wait(&mut self, waiter: &Self::Waiter) -> bool
        ensures does { waits self.old self.new result }
        ensures ready { can_park self.old → can_park self.new };
}

/// A receive that waits. It ends as its last turn says. `NoMemory`: no memory for the waiter, or in
/// a turn. A parked call withdraws then, and ends with the message if one came.
/// ```
/// // The gate is of an empty channel, and it has a deadline.
/// let ended = recv_over(rt, &mut gate);
/// // a message 7 comes before the deadline:    Ok(7)
/// // it is reached before one does:            Err(Timeout)
/// // the last sender leaves before either:     Err(Disconnected)
/// // no memory for what the call parks on:     Err(NoMemory)
/// ```
#[inline(always)]
pub fn recv_over<T: Drop, G: RecvGate<T>, R: Wait>(
    rt: &R,
    gate: &mut G,
) -> Result<T, RecvTimeoutError>
    ensures run { WholeReceive G.first_turn G.makes G.parking_turn G.parked_turn G.waits
        gate.old gate.new result }
    ensures no_memory { IsNeverRefused G.parked_turn → result ≡ Err RecvTimeoutError.NoMemory
        → EndsUnparked G.first_turn G.makes G.parking_turn gate.old gate.new }
{
    match gate.first() {
        RecvNext::Done(result) => result,
        RecvNext::NeedSignal => waiting_receive(rt, gate),
        RecvNext::Park(_) | RecvNext::Refused(_) => unreachable!(),
    }
}

/// [`recv_over`] from a first turn on that found no message.
/// ```
/// // The gate is of a channel that was empty when it was asked, and it has a deadline.
/// let ended = waiting_receive(rt, &mut gate);
/// // a message 7 comes before the deadline:    Ok(7)
/// // it is reached before one does:            Err(Timeout)
/// // the last sender leaves before either:     Err(Disconnected)
/// // no memory for what the call parks on:     Err(NoMemory)
/// ```
#[inline(always)]
pub fn waiting_receive<T: Drop, G: RecvGate<T>, R: Wait>(
    rt: &R,
    gate: &mut G,
) -> Result<T, RecvTimeoutError>
    ensures run { (start : G) → G.first_turn start gate.old RecvNext.NeedSignal
        → WholeReceive G.first_turn G.makes G.parking_turn G.parked_turn G.waits
        start gate.new result }
    ensures no_memory { (start : G) → G.first_turn start gate.old RecvNext.NeedSignal
        → IsNeverRefused G.parked_turn → result ≡ Err RecvTimeoutError.NoMemory
        → EndsUnparked G.first_turn G.makes G.parking_turn start gate.new }
{
    let Some((waiter, signal)) = gate.arm() else {
        return Err(NoMemory);
    };
    match gate.park(signal) {
        RecvNext::Done(result) => result,
        RecvNext::Park(call) => parked_receive(rt, gate, &waiter, call),
        RecvNext::NeedSignal | RecvNext::Refused(_) => unreachable!(),
    }
}

#[inline(always)]
fn parked_receive<T: Drop, G: RecvGate<T>, R: Wait>(
    rt: &R,
    gate: &mut G,
    waiter: &G::Waiter,
    mut call: RecvCall,
) -> Result<T, RecvTimeoutError>
    requires ready { G.can_park gate.old }
    ensures run { ParkedReceive G.parked_turn G.waits gate.old call gate.new result }
    ensures wants_no_memory { IsNeverRefused G.parked_turn
        → result ≢ Err RecvTimeoutError.NoMemory }
{
    for _ in rt.forever() {
        call = match gate.again(call, false) {
            RecvNext::Done(result) => return result,
            RecvNext::Park(same) => same,
            RecvNext::Refused(same) => return withdraw_refused(gate, same),
            RecvNext::NeedSignal => unreachable!(),
        };
        if gate.wait(waiter) {
            return match gate.again(call, true) {
                RecvNext::Done(result) => result,
                _ => unreachable!(),
            };
        }
    }
    unreachable!()
}

#[inline(always)]
fn withdraw_refused<T: Drop, G: RecvGate<T>>(
    gate: &mut G,
    call: RecvCall,
) -> Result<T, RecvTimeoutError>
    requires ready { G.can_park gate.old }
    ensures withdraws { (answer : Result T RecvTimeoutError)
        × G.parked_turn gate.old call true gate.new (RecvNext.Done answer)
        × (result ≡ got_or_no_memory answer) }
{
    match gate.again(call, true) {
        RecvNext::Done(Ok(message)) => Ok(message),
        RecvNext::Done(Err(_)) => Err(NoMemory),
        _ => unreachable!(),
    }
}
