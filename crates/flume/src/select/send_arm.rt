//! An arm that sends, of a sender without a trace.
ghost use Rattle.std.specs.Prelude.{◌≡◌, IsSome};
ghost use Rattle.flume.specs.declared.select.send.SendState.{SendState};
ghost use Rattle.flume.specs.ArmStates.{CompletesSend, send_result};
ghost use Rattle.flume.specs.ArmTurns.{SendTurn, WithdrawsSend};
ghost use Rattle.flume.specs.Selections.{CanMap, Maps, MapsResult};

use crate::select::arms::{Arm, ArmTurns};
use crate::select::send::OfferArm;
use crate::sender::Sender;
use crate::shared::Waits;
use crate::signal::Parker;
use flume_calls::gates::ArmNext;
use flume_core::error::SendError;
use flume_keeper::{NoParty, NoTrace};
use std::alloc::{Allocator, Global};
use std::sync::Arc;

/// An arm that sends: `Selector::send`.
#[derive(Drop)]
pub struct SendArm<'a, T, F, R: Waits, A: Allocator + Copy = Global> {
    arm: OfferArm<'a, T, R, A, NoTrace>,
    mapper: F,
}

impl<'a, T: Drop, F: Drop, R: Waits, A: Allocator + Copy> SendArm<'a, T, F, R, A> {
    pub(crate) fn new(sender: &'a Sender<T, R, A>, message: T, mapper: F) -> Self
        ensures channel { result.arm.sender.now ≡ sender.now }
        ensures unstarted { result.arm.state ≡ SendState.Unstarted message }
        ensures mapper { result.mapper ≡ mapper }
    {
        SendArm {
            arm: OfferArm::new(sender, NoParty, message),
            mapper,
        }
    }
}

impl<'a, T: Drop, F: Drop, R: Waits, A: Allocator + Copy> ArmTurns<A> for SendArm<'a, T, F, R, A> {
    type Runtime = R;

    type Mapper = F;

    ghost mapper = { λ arm. arm.mapper };

    ghost has_completed = { λ arm. IsSome (send_result arm.arm.state) };

    ghost turns = { λ parks old next new.
        SendTurn A parks old.arm.state next new.arm.state × (new.mapper ≡ old.mapper) };

    ghost withdraws = { λ old new.
        WithdrawsSend A old.arm.state new.arm.state × (new.mapper ≡ old.mapper) };

    fn runtime(&self) -> R {
        self.arm.sender.shared().rt
    }

    fn alloc(&self) -> A {
        self.arm.sender.shared().alloc
    }

    fn checks(&self) -> u32 {
        self.arm.sender.shared().checks()
    }

    fn turn(&mut self, number: usize, parker: Option<&Arc<Parker, A>>) -> ArmNext {
        self.arm.turn(number, parker)
    }

    fn withdraw(&mut self) {
        self.arm.withdraw();
    }
}

impl<'a, V, T: Drop, F, R: Waits, A: Allocator + Copy> Arm<V, A> for SendArm<'a, T, F, R, A>
where
    F: FnOnce(Result<(), SendError<T>>) -> V + Drop,
{
    ghost can_map = { CanMap F.pre CompletesSend };

    ghost maps = { Maps F.post CompletesSend };

    ghost answers = { λ arm. MapsResult F.post arm.mapper (send_result arm.arm.state) };

    fn value(self) -> Option<V> {
        let SendArm { arm, mapper } = self;
        match arm.state.into_result() {
            Some(result) => Some(mapper(result)),
            None => None,
        }
    }
}
