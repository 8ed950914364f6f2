//! Arms that receive, one for each receiver of a slice.
ghost use Rattle.std.specs.Prelude.{◌≡◌, IfOk, IsSome, length, map};
ghost use Rattle.flume_calls.specs.declared.gates.select.ArmNext.TheVariants.{NoMemory};
ghost use Rattle.flume.specs.declared.select.receive.ReceiveState.{ReceiveState};
ghost use Rattle.flume.specs.ArmLists.{HoldsAt, ChangesAt};
ghost use Rattle.flume.specs.ArmStates.{CompletesReceive, receive_result};
ghost use Rattle.flume.specs.ArmTurns.{ReceiveTurn, WithdrawsReceive};
ghost use Rattle.flume.specs.Selections.{CanMapEach, MapsEach, MapsResult};

use crate::receiver::Receiver;
use crate::select::arms::ArmList;
use crate::select::receive::{ReceiveArm, ReceiveState};
use crate::shared::Waits;
use crate::signal::Parker;
use flume_calls::gates::ArmNext;
use flume_core::error::RecvError;
use flume_keeper::{NoParty, NoTrace};
use std::alloc::{AllocError, Allocator, Global};
use std::cmp::max;
use std::mem::replace;
use std::sync::Arc;

/// Arms that receive: `Selector::recv_each`.
// Of a `Vec` of arms a caller would have to prove that `R` outlives what they borrow.
#[derive(Drop)]
pub struct ReceiveList<'a, T, R: Waits, A: Allocator + Copy = Global> {
    receivers: &'a [Receiver<T, R, A>],
    states: Vec<ReceiveState<T>, A>,
    ghost matched: { length states.items ≡ length receivers.now },
}

impl<'a, T: Drop, R: Waits, A: Allocator + Copy> ReceiveList<'a, T, R, A> {
    pub(crate) fn new(receivers: &'a [Receiver<T, R, A>], alloc: A) -> Result<Self, AllocError>
        ensures receivers { IfOk result (λ list. list.receivers.now ≡ receivers.now) }
        ensures unstarted { IfOk result (λ list. list.states.items
            ≡ map (λ _. ReceiveState.Unstarted) receivers.now) }
    {
        let mut states = Vec::with_capacity(alloc, receivers.len())?;
        for _receiver in receivers {
            states.push_reserved(ReceiveState::Unstarted);
        }
        Ok(ReceiveList { receivers, states })
    }
}

impl<V, T: Drop, F, R: Waits, A: Allocator + Copy> ArmList<V, F, A> for ReceiveList<'_, T, R, A>
where
    F: FnOnce(usize, Result<T, RecvError>) -> V + Drop,
{
    ghost can_map = { CanMapEach F.pre CompletesReceive };

    ghost maps = { MapsEach F.post CompletesReceive };

    ghost has_completed = { λ list.
        HoldsAt (λ state. IsSome (receive_result state)) list.states.items };

    ghost answers = { λ list mapper place value.
        HoldsAt (λ state. MapsResult (λ f. F.post f place) mapper (receive_result state) value)
        list.states.items place };

    ghost turns = { λ parks old place next new.
        ChangesAt (λ before after. ReceiveTurn A parks before next after) (next ≡ NoMemory)
        old.states.items place new.states.items };

    ghost withdraws = { λ old place new.
        ChangesAt (WithdrawsReceive A) (Unit {0}) old.states.items place new.states.items };

    fn checks(&self) -> u32 {
        let mut most = 0;
        for receiver in self.receivers {
            most = max(most, receiver.shared().checks());
        }
        most
    }

    fn turn(&mut self, place: usize, number: usize, parker: Option<&Arc<Parker, A>>) -> ArmNext {
        let Some(receiver) = self.receivers.get(place) else {
            return ArmNext::NoMemory;
        };
        match self.states.get_mut(place) {
            Some(state) => {
                let mut arm = arm_of(receiver, replace(state, ReceiveState::Finished));
                let next = arm.turn(number, parker);
                *state = arm.state;
                next
            }
            None => ArmNext::NoMemory,
        }
    }

    fn withdraw(&mut self, place: usize) {
        let Some(receiver) = self.receivers.get(place) else {
            return;
        };
        if let Some(state) = self.states.get_mut(place) {
            let mut arm = arm_of(receiver, replace(state, ReceiveState::Finished));
            drop(arm.withdraw());
            *state = arm.state;
        }
    }

    fn value(self, place: usize, mapper: F) -> Option<V> {
        let ReceiveList { mut states, .. } = self;
        if states.len() <= place {
            return None;
        }
        match states.swap_remove(place).into_result() {
            Some(result) => Some(mapper(place, result)),
            None => None,
        }
    }
}

fn arm_of<'a, T: Drop, R: Waits, A: Allocator + Copy>(
    receiver: &'a Receiver<T, R, A>,
    state: ReceiveState<T>,
) -> ReceiveArm<'a, T, R, A, NoTrace>
    ensures state { result.state ≡ state }
{
    ReceiveArm {
        receiver,
        state,
        me: NoParty,
    }
}
