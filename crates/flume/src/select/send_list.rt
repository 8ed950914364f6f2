//! Arms that send, one for each pair of a sender and a message.
ghost use Rattle.std.specs.Prelude.{◌≡◌, IfOk, IsSome, map};
ghost use Rattle.flume_calls.specs.declared.gates.select.ArmNext.TheVariants.{NoMemory};
ghost use Rattle.flume.specs.declared.select.send.SendState.{SendState};
ghost use Rattle.flume.specs.ArmLists.{HoldsAt, ChangesAt};
ghost use Rattle.flume.specs.ArmStates.{CompletesSend, send_result};
ghost use Rattle.flume.specs.ArmTurns.{SendTurn, WithdrawsSend};
ghost use Rattle.flume.specs.Selections.{CanMapEach, MapsEach, MapsResult};

use crate::select::arms::ArmList;
use crate::select::send::OfferArm;
use crate::sender::Sender;
use crate::shared::Waits;
use crate::signal::Parker;
use flume_calls::gates::ArmNext;
use flume_core::error::SendError;
use flume_keeper::{NoParty, NoTrace};
use std::alloc::{AllocError, Allocator, Global};
use std::cmp::max;
use std::sync::Arc;

/// Arms that send: `Selector::send_each`.
#[derive(Drop)]
pub struct SendList<'a, T, R: Waits, A: Allocator + Copy = Global> {
    arms: Vec<OfferArm<'a, T, R, A, NoTrace>, A>,
}

impl<'a, T: Drop, R: Waits, A: Allocator + Copy> SendList<'a, T, R, A> {
    pub(crate) fn new(sends: Vec<(&'a Sender<T, R, A>, T), A>, alloc: A) -> Result<Self, AllocError>
        ensures channels { IfOk result (λ list. map (λ arm. arm.sender.now) list.arms.items
            ≡ map (λ pair. pair.0.now) sends.entry.items) }
        ensures unstarted { IfOk result (λ list. map (λ arm. arm.state) list.arms.items
            ≡ map (λ pair. SendState.Unstarted pair.1) sends.entry.items) }
    {
        let mut arms = Vec::with_capacity(alloc, sends.len())?;
        for (sender, message) in sends {
            arms.push_reserved(OfferArm::new(sender, NoParty, message));
        }
        Ok(SendList { arms })
    }
}

impl<V, T: Drop, F, R: Waits, A: Allocator + Copy> ArmList<V, F, A> for SendList<'_, T, R, A>
where
    F: FnOnce(usize, Result<(), SendError<T>>) -> V + Drop,
{
    ghost can_map = { CanMapEach F.pre CompletesSend };

    ghost maps = { MapsEach F.post CompletesSend };

    ghost has_completed = { λ list.
        HoldsAt (λ arm. IsSome (send_result arm.state)) list.arms.items };

    ghost answers = { λ list mapper place value.
        HoldsAt (λ arm. MapsResult (λ f. F.post f place) mapper (send_result arm.state) value)
        list.arms.items place };

    ghost turns = { λ parks old place next new.
        ChangesAt (λ before after. SendTurn A parks before.state next after.state)
        (next ≡ NoMemory) old.arms.items place new.arms.items };

    ghost withdraws = { λ old place new.
        ChangesAt (λ before after. WithdrawsSend A before.state after.state) (Unit {0})
        old.arms.items place new.arms.items };

    fn checks(&self) -> u32 {
        let mut most = 0;
        for arm in &self.arms {
            most = max(most, arm.sender.shared().checks());
        }
        most
    }

    fn turn(&mut self, place: usize, number: usize, parker: Option<&Arc<Parker, A>>) -> ArmNext {
        match self.arms.get_mut(place) {
            Some(arm) => arm.turn(number, parker),
            None => ArmNext::NoMemory,
        }
    }

    fn withdraw(&mut self, place: usize) {
        if let Some(arm) = self.arms.get_mut(place) {
            arm.withdraw();
        }
    }

    fn value(self, place: usize, mapper: F) -> Option<V> {
        let SendList { mut arms } = self;
        if arms.len() <= place {
            return None;
        }
        match arms.swap_remove(place).state.into_result() {
            Some(result) => Some(mapper(place, result)),
            None => None,
        }
    }
}
