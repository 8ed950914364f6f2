//! A receive as an arm of a selector, of either kind of receiver.
ghost use Rattle.std.specs.Prelude.{◌≡◌, IfSome, IsSome, is_some};
ghost use Rattle.std.specs.Result.{result_ok};
ghost use Rattle.flume_calls.specs.declared.gates.select.ArmNext.{ArmNext};
ghost use Rattle.flume.specs.declared.select.receive.ReceiveState.{ReceiveState};
ghost use Rattle.flume.specs.ArmParties.{PollsReceiveOf, ReceiveTurnOf, StartsReceiveOf};
ghost use Rattle.flume.specs.ArmParties.{TriesReceiveOf, WithdrawsReceiveOf};
ghost use Rattle.flume.specs.ArmStates.{CompletesReceive, IsAfterReceive, IsArmReceive};
ghost use Rattle.flume.specs.ArmStates.{receive_result};
ghost use Rattle.flume.specs.ArmTurns.{HasWithdrawnReceive, PollsReceive, ReceiveTurn};
ghost use Rattle.flume.specs.ArmTurns.{StartsReceive, TriesReceive, WithdrawsReceive};

use crate::receiver::Receiver;
use crate::shared::Waits;
use crate::signal::{ArmSignal, Parker, Signal};
use flume_calls::calls::{AgainReceive, FirstReceive, ParkReceive, RecvCall, RecvNext};
use flume_calls::gates::ArmNext;
use flume_core::error::RecvError;
use flume_core::error::RecvTimeoutError::{Disconnected, NoMemory, Timeout};
use flume_keeper::Keeper;
use flume_model::step::Kind;
use std::alloc::Allocator;
use std::mem::replace;
use std::sync::Arc;

#[derive(Drop)]
pub(crate) enum ReceiveState<T> {
    Unstarted,
    Parked(RecvCall),
    // `None`: the channel is closed.
    Completed(Option<T>),
    // Withdrawn, or out of memory.
    Finished,
}

impl<T: Drop> ReceiveState<T> {
    pub(crate) fn into_result(self) -> Option<Result<T, RecvError>>
        ensures result { result ≡ receive_result self }
        ensures completes { IfSome result CompletesReceive }
    {
        match self {
            ReceiveState::Completed(Some(message)) => Some(Ok(message)),
            ReceiveState::Completed(None) => Some(Err(RecvError::Disconnected)),
            _ => None,
        }
    }
}

// What `RecvArm` and `TracedRecvArm` have in common.
#[derive(Drop)]
pub(crate) struct ReceiveArm<'a, T, R: Waits, A: Allocator + Copy, K: Keeper<T, A>> {
    pub(crate) receiver: &'a Receiver<T, R, A, K>,
    pub(crate) state: ReceiveState<T>,
    pub(crate) me: K::Party,
}

impl<'a, T: Drop, R: Waits, A: Allocator + Copy, K: Keeper<T, A>> ReceiveArm<'a, T, R, A, K> {
    pub(crate) fn new(receiver: &'a Receiver<T, R, A, K>, me: K::Party) -> Self
        ensures channel { result.receiver.now ≡ receiver.now }
        ensures unstarted { result.state ≡ ReceiveState.Unstarted }
        ensures party { result.me ≡ me }
    {
        ReceiveArm {
            receiver,
            state: ReceiveState::Unstarted,
            me,
        }
    }

    fn start(&mut self, number: usize, parker: &Arc<Parker, A>) -> ArmNext
        ensures does { StartsReceive A result self.new.state }
        ensures did { StartsReceiveOf K.did self.old.me result self.new.state self.new.me }
        ensures channel { self.new.receiver ≡ self.old.receiver }
    {
        let Some(signal) = ArmSignal::new(parker, number) else {
            self.state = ReceiveState::Finished;
            return ArmNext::NoMemory;
        };
        let (kind, signal) = (Kind::Arm, Signal::Arm(signal));
        let shared = self.receiver.shared();
        let (state, answer) = next_state(shared.call_cold(
            &mut self.me,
            ParkReceive { kind, signal },
        ));
        self.state = state;
        answer
    }

    fn attempt(&mut self) -> ArmNext
        ensures does { TriesReceive A result self.new.state }
        ensures did { TriesReceiveOf K.did self.old.me result self.new.state self.new.me }
        ensures channel { self.new.receiver ≡ self.old.receiver }
    {
        let shared = self.receiver.shared();
        let (state, answer) = next_state(shared.call_cold(&mut self.me, FirstReceive));
        self.state = state;
        answer
    }

    fn poll(&mut self, call: RecvCall) -> ArmNext
        ensures does { PollsReceive A call result self.new.state }
        ensures did { PollsReceiveOf K.did call self.old.me result self.new.state self.new.me }
        ensures channel { self.new.receiver ≡ self.old.receiver }
    {
        let (last, signal) = (false, None);
        let shared = self.receiver.shared();
        let (state, answer) = next_state(shared.call_cold(
            &mut self.me,
            AgainReceive { call, last, signal },
        ));
        self.state = state;
        answer
    }

    // The message if it got one, which no channel hands to an arm.
    fn leave(&mut self, call: RecvCall) -> Option<T>
        ensures withdrawn { HasWithdrawnReceive T A call }
        ensures did { WithdrawsReceiveOf K.did (ReceiveState.Parked call) self.old.me result
            ReceiveState.Finished self.new.me }
        ensures channel { self.new.receiver ≡ self.old.receiver }
        ensures state { self.new.state ≡ self.old.state }
    {
        let (last, signal) = (true, None);
        let shared = self.receiver.shared();
        match shared.call_cold(&mut self.me, AgainReceive { call, last, signal }) {
            RecvNext::Done(result) => result.ok(),
            _ => unreachable!(),
        }
    }

    pub(crate) fn turn(&mut self, number: usize, parker: Option<&Arc<Parker, A>>) -> ArmNext
        ensures does { ReceiveTurn A (is_some parker.entry) self.old.state result self.new.state }
        ensures did { ReceiveTurnOf K.did (is_some parker.entry) self.old.state self.old.me result
            self.new.state self.new.me }
        ensures completed { result ≡ ArmNext.Completed → IsSome (receive_result self.new.state) }
        ensures channel { self.new.receiver ≡ self.old.receiver }
    {
        match replace(&mut self.state, ReceiveState::Finished) {
            ReceiveState::Unstarted => match parker {
                Some(parker) => self.start(number, parker),
                None => self.attempt(),
            },
            ReceiveState::Parked(call) => self.poll(call),
            ReceiveState::Completed(message) => {
                self.state = ReceiveState::Completed(message);
                ArmNext::Completed
            }
            ReceiveState::Finished => ArmNext::NoMemory,
        }
    }

    // With the message that came with it, if one did.
    pub(crate) fn withdraw(&mut self) -> Option<T>
        ensures does { WithdrawsReceive A self.old.state self.new.state }
        ensures did { WithdrawsReceiveOf K.did self.old.state self.old.me result self.new.state
            self.new.me }
        ensures completed { IsSome (receive_result self.old.state)
            → IsSome (receive_result self.new.state) }
        ensures channel { self.new.receiver ≡ self.old.receiver }
    {
        match replace(&mut self.state, ReceiveState::Finished) {
            ReceiveState::Parked(call) => self.leave(call),
            other => {
                self.state = other;
                None
            }
        }
    }
}

fn next_state<T: Drop>(next: RecvNext<T>) -> (ReceiveState<T>, ArmNext)
    requires turn { IsArmReceive next }
    ensures does { IsAfterReceive next result.1 result.0 }
{
    match next {
        RecvNext::Park(call) => (ReceiveState::Parked(call), ArmNext::Waits),
        RecvNext::NeedSignal => (ReceiveState::Unstarted, ArmNext::Waits),
        RecvNext::Done(Ok(message)) => {
            (ReceiveState::Completed(Some(message)), ArmNext::Completed)
        }
        RecvNext::Done(Err(Disconnected)) => (ReceiveState::Completed(None), ArmNext::Completed),
        RecvNext::Done(Err(NoMemory)) => (ReceiveState::Finished, ArmNext::NoMemory),
        RecvNext::Done(Err(Timeout)) | RecvNext::Refused(_) => unreachable!(),
    }
}
