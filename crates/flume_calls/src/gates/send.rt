//! A send through a gate.
ghost use Rattle.std.specs.Prelude.{◌≡◌, ◌≢◌, ℕ, Bool, is_some};
ghost use Rattle.flume_calls.specs.declared.calls.send.SendNext.{SendNext};
ghost use Rattle.flume_calls.specs.SendTurns.{IsFirstAnswer, IsParkingAnswer, IsParkedAnswer};
ghost use Rattle.flume_calls.specs.SendGates.{ParkedSend, WholeSend};

use crate::calls::{SendCall, SendNext};
use flume_core::error::SendTimeoutError;
use flume_core::error::SendTimeoutError::NoMemory;
use std::sync::Wait;

/// How a blocking send reaches its channel. Relations are from the gate before to that after.
pub trait SendGate<T> {
    /// What the call waits on.
    type Waiter: Drop;

    /// The signal that the call leaves as it parks.
    type Signal: Drop;

    ghost first_turn: { Self → T → Self → SendNext T → Type 0 };

    ghost makes: { Self → Self → Bool → Type 0 };

    ghost parking_turn: { Self → T → Self → SendNext T → Type 0 };

    // With the ticket, and whether it is the last turn.
    ghost parked_turn: { Self → ℕ → Bool → Self → SendNext T → Type 0 };

    ghost waits: { Self → Self → Bool → Type 0 };

    /// The first turn.
    fn first(&mut self, message: T) -> SendNext<T>
        ensures does { first_turn self.old message self.new result }
        ensures answers { IsFirstAnswer message result };

    /// Makes the waiter and its signal. `None`: out of memory.
    fn arm(&mut self) -> Option<(Self::Waiter, Self::Signal)>
        ensures does { makes self.old self.new (is_some result) };

    /// The turn that may park.
    fn park(&mut self, message: T, signal: Self::Signal) -> SendNext<T>
        ensures does { parking_turn self.old message self.new result }
        ensures answers { IsParkingAnswer message result };

    /// A turn of the parked call, the `last` one at its deadline.
    fn again(&mut self, call: SendCall, last: bool) -> SendNext<T>
        ensures does { parked_turn self.old call last self.new result }
        ensures answers { IsParkedAnswer call last result };

    /// Waits for a wake or for the deadline. True, at once, if the deadline is reached.
    fn wait(&mut self, waiter: &Self::Waiter) -> bool
        ensures does { waits self.old self.new result };
}

/// A send that waits. It ends as its last turn says, or with `NoMemory`: none for the waiter.
/// ```
/// // The gate is of a full channel, and it has a deadline.
/// let ended = send_over(rt, &mut gate, 7);
/// // a message is taken out before the deadline: Ok(())
/// // it is reached before one is:                Err(Timeout(7))
/// // no memory for what the call parks on:       Err(NoMemory(7))
/// ```
#[inline(always)]
pub fn send_over<T, G: SendGate<T>, R: Wait>(
    rt: &R,
    gate: &mut G,
    message: T,
) -> Result<(), SendTimeoutError<T>>
    ensures run { WholeSend G.first_turn G.makes G.parking_turn G.parked_turn G.waits
        gate.old message gate.new result }
    ensures no_memory_holds { (back : T) → result ≡ Err (SendTimeoutError.NoMemory back)
        → back ≡ message }
{
    match gate.first(message) {
        SendNext::Done(result) => result,
        SendNext::NeedSignal(message) => waiting_send(rt, gate, message),
        SendNext::Park(_) => unreachable!(),
    }
}

/// [`send_over`] from a first turn on that found the channel full.
/// ```
/// // The gate is of a channel that was full when the message was offered, and it has a deadline.
/// let ended = waiting_send(rt, &mut gate, 7);
/// // a message is taken out before the deadline:  Ok(())
/// // it is reached before one is:                 Err(Timeout(7))
/// // no memory for what the call parks on:        Err(NoMemory(7))
/// ```
#[inline(always)]
pub fn waiting_send<T, G: SendGate<T>, R: Wait>(
    rt: &R,
    gate: &mut G,
    message: T,
) -> Result<(), SendTimeoutError<T>>
    ensures run { (start : G) → G.first_turn start message gate.old (SendNext.NeedSignal message)
        → WholeSend G.first_turn G.makes G.parking_turn G.parked_turn G.waits
        start message gate.new result }
    ensures no_memory_holds { (back : T) → result ≡ Err (SendTimeoutError.NoMemory back)
        → back ≡ message }
{
    let Some((waiter, signal)) = gate.arm() else {
        return Err(NoMemory(message));
    };
    match gate.park(message, signal) {
        SendNext::Done(result) => result,
        SendNext::Park(call) => parked_send(rt, gate, &waiter, call),
        SendNext::NeedSignal(_) => unreachable!(),
    }
}

#[inline(always)]
fn parked_send<T, G: SendGate<T>, R: Wait>(
    rt: &R,
    gate: &mut G,
    waiter: &G::Waiter,
    mut call: SendCall,
) -> Result<(), SendTimeoutError<T>>
    ensures run { ParkedSend G.parked_turn G.waits gate.old call gate.new result }
    ensures wants_no_memory { (back : T) → result ≢ Err (SendTimeoutError.NoMemory back) }
{
    for _ in rt.forever() {
        call = match gate.again(call, false) {
            SendNext::Done(result) => return result,
            SendNext::Park(same) => same,
            SendNext::NeedSignal(_) => unreachable!(),
        };
        if gate.wait(waiter) {
            return match gate.again(call, true) {
                SendNext::Done(result) => result,
                SendNext::NeedSignal(_) | SendNext::Park(_) => unreachable!(),
            };
        }
    }
    unreachable!()
}
