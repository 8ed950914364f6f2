//! A send as an arm of a selector, of either kind of sender.
ghost use Rattle.std.specs.Prelude.{◌≡◌, IfSome, IsSome, is_some};
ghost use Rattle.flume_calls.specs.declared.gates.select.ArmNext.{ArmNext};
ghost use Rattle.flume.specs.declared.select.send.SendState.{SendState};
ghost use Rattle.flume.specs.ArmParties.{PollsSendOf, SendTurnOf, StartsSendOf, TriesSendOf};
ghost use Rattle.flume.specs.ArmParties.{WithdrawsSendOf};
ghost use Rattle.flume.specs.ArmStates.{CompletesSend, IsAfterSend, IsArmSend, send_result};
ghost use Rattle.flume.specs.ArmTurns.{HasWithdrawnSend, PollsSend, SendTurn, StartsSend};
ghost use Rattle.flume.specs.ArmTurns.{TriesSend, WithdrawsSend};

use crate::sender::Sender;
use crate::shared::Waits;
use crate::signal::{ArmSignal, Parker, Signal};
use flume_calls::calls::{AgainSend, FirstSend, ParkSend, SendCall, SendNext};
use flume_calls::gates::ArmNext;
use flume_core::error::SendError;
use flume_core::error::SendTimeoutError::{Disconnected, NoMemory, Timeout};
use flume_keeper::Keeper;
use std::alloc::Allocator;
use std::mem::replace;
use std::sync::Arc;

#[derive(Drop)]
pub(crate) enum SendState<T> {
    Unstarted(T),
    Parked(SendCall),
    // `Err`: the channel is closed.
    Completed(Result<(), T>),
    // Withdrawn, or out of memory.
    Finished,
}

impl<T: Drop> SendState<T> {
    pub(crate) fn into_result(self) -> Option<Result<(), SendError<T>>>
        ensures result { result ≡ send_result self }
        ensures completes { IfSome result CompletesSend }
    {
        match self {
            SendState::Completed(Ok(())) => Some(Ok(())),
            SendState::Completed(Err(back)) => Some(Err(SendError::Disconnected(back))),
            _ => None,
        }
    }
}

// What `SendArm` and `TracedSendArm` have in common.
#[derive(Drop)]
pub(crate) struct OfferArm<'a, T, R: Waits, A: Allocator + Copy, K: Keeper<T, A>> {
    pub(crate) sender: &'a Sender<T, R, A, K>,
    pub(crate) state: SendState<T>,
    pub(crate) me: K::Party,
}

impl<'a, T: Drop, R: Waits, A: Allocator + Copy, K: Keeper<T, A>> OfferArm<'a, T, R, A, K> {
    pub(crate) fn new(sender: &'a Sender<T, R, A, K>, me: K::Party, message: T) -> Self
        ensures channel { result.sender.now ≡ sender.now }
        ensures unstarted { result.state ≡ SendState.Unstarted message }
        ensures party { result.me ≡ me }
    {
        OfferArm {
            sender,
            state: SendState::Unstarted(message),
            me,
        }
    }

    fn start(&mut self, message: T, number: usize, parker: &Arc<Parker, A>) -> ArmNext
        ensures does { StartsSend A message result self.new.state }
        ensures did { StartsSendOf K.did message self.old.me result self.new.state self.new.me }
        ensures channel { self.new.sender ≡ self.old.sender }
    {
        let Some(signal) = ArmSignal::new(parker, number) else {
            self.state = SendState::Finished;
            return ArmNext::NoMemory;
        };
        let signal = Signal::Arm(signal);
        let shared = self.sender.shared();
        let (state, answer) = next_state(shared.call_cold(
            &mut self.me,
            ParkSend { message, signal },
        ));
        self.state = state;
        answer
    }

    fn attempt(&mut self, message: T) -> ArmNext
        ensures does { TriesSend A message result self.new.state }
        ensures did { TriesSendOf K.did message self.old.me result self.new.state self.new.me }
        ensures channel { self.new.sender ≡ self.old.sender }
    {
        let shared = self.sender.shared();
        let (state, answer) = next_state(shared.call_cold(&mut self.me, FirstSend { message }));
        self.state = state;
        answer
    }

    fn poll(&mut self, call: SendCall) -> ArmNext
        ensures does { PollsSend A call result self.new.state }
        ensures did { PollsSendOf K.did call self.old.me result self.new.state self.new.me }
        ensures channel { self.new.sender ≡ self.old.sender }
    {
        let (last, signal) = (false, None);
        let shared = self.sender.shared();
        let (state, answer) = next_state(shared.call_cold(
            &mut self.me,
            AgainSend { call, last, signal },
        ));
        self.state = state;
        answer
    }

    fn take_back(&mut self, call: SendCall)
        ensures withdrawn { HasWithdrawnSend T A call }
        ensures did { WithdrawsSendOf K.did (SendState.Parked call) self.old.me SendState.Finished
            self.new.me }
        ensures channel { self.new.sender ≡ self.old.sender }
        ensures state { self.new.state ≡ self.old.state }
    {
        let (last, signal) = (true, None);
        let shared = self.sender.shared();
        match shared.call_cold(&mut self.me, AgainSend { call, last, signal }) {
            SendNext::Done(result) => drop(result),
            _ => unreachable!(),
        }
    }

    pub(crate) fn turn(&mut self, number: usize, parker: Option<&Arc<Parker, A>>) -> ArmNext
        ensures does { SendTurn A (is_some parker.entry) self.old.state result self.new.state }
        ensures did { SendTurnOf K.did (is_some parker.entry) self.old.state self.old.me result
            self.new.state self.new.me }
        ensures completed { result ≡ ArmNext.Completed → IsSome (send_result self.new.state) }
        ensures channel { self.new.sender ≡ self.old.sender }
    {
        match replace(&mut self.state, SendState::Finished) {
            SendState::Unstarted(message) => match parker {
                Some(parker) => self.start(message, number, parker),
                None => self.attempt(message),
            },
            SendState::Parked(call) => self.poll(call),
            SendState::Completed(result) => {
                self.state = SendState::Completed(result);
                ArmNext::Completed
            }
            SendState::Finished => ArmNext::NoMemory,
        }
    }

    pub(crate) fn withdraw(&mut self)
        ensures does { WithdrawsSend A self.old.state self.new.state }
        ensures did { WithdrawsSendOf K.did self.old.state self.old.me self.new.state self.new.me }
        ensures completed { IsSome (send_result self.old.state)
            → IsSome (send_result self.new.state) }
        ensures channel { self.new.sender ≡ self.old.sender }
    {
        match replace(&mut self.state, SendState::Finished) {
            SendState::Parked(call) => self.take_back(call),
            other => self.state = other,
        }
    }
}

fn next_state<T: Drop>(next: SendNext<T>) -> (SendState<T>, ArmNext)
    requires turn { IsArmSend next }
    ensures does { IsAfterSend next result.1 result.0 }
{
    match next {
        SendNext::Park(call) => (SendState::Parked(call), ArmNext::Waits),
        SendNext::NeedSignal(back) => (SendState::Unstarted(back), ArmNext::Waits),
        SendNext::Done(Ok(())) => (SendState::Completed(Ok(())), ArmNext::Completed),
        SendNext::Done(Err(Disconnected(back))) => {
            (SendState::Completed(Err(back)), ArmNext::Completed)
        }
        SendNext::Done(Err(NoMemory(_))) => (SendState::Finished, ArmNext::NoMemory),
        SendNext::Done(Err(Timeout(_))) => unreachable!(),
    }
}
