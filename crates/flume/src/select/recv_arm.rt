//! An arm that receives, of a receiver without a trace.
ghost use Rattle.std.specs.Prelude.{◌≡◌, IsSome};
ghost use Rattle.flume.specs.declared.select.receive.ReceiveState.{ReceiveState};
ghost use Rattle.flume.specs.ArmStates.{CompletesReceive, receive_result};
ghost use Rattle.flume.specs.ArmTurns.{ReceiveTurn, WithdrawsReceive};
ghost use Rattle.flume.specs.Selections.{CanMap, Maps, MapsResult};

use crate::receiver::Receiver;
use crate::select::arms::{Arm, ArmTurns};
use crate::select::receive::ReceiveArm;
use crate::shared::Waits;
use crate::signal::Parker;
use flume_calls::gates::ArmNext;
use flume_core::error::RecvError;
use flume_keeper::{NoParty, NoTrace};
use std::alloc::{Allocator, Global};
use std::sync::Arc;

/// An arm that receives: `Selector::recv`.
#[derive(Drop)]
pub struct RecvArm<'a, T, F, R: Waits, A: Allocator + Copy = Global> {
    arm: ReceiveArm<'a, T, R, A, NoTrace>,
    mapper: F,
}

impl<'a, T: Drop, F: Drop, R: Waits, A: Allocator + Copy> RecvArm<'a, T, F, R, A> {
    pub(crate) fn new(receiver: &'a Receiver<T, R, A>, mapper: F) -> Self
        ensures channel { result.arm.receiver.now ≡ receiver.now }
        ensures unstarted { result.arm.state ≡ ReceiveState.Unstarted }
        ensures mapper { result.mapper ≡ mapper }
    {
        RecvArm {
            arm: ReceiveArm::new(receiver, NoParty),
            mapper,
        }
    }
}

impl<'a, T: Drop, F: Drop, R: Waits, A: Allocator + Copy> ArmTurns<A> for RecvArm<'a, T, F, R, A> {
    type Runtime = R;

    type Mapper = F;

    ghost mapper = { λ arm. arm.mapper };

    ghost has_completed = { λ arm. IsSome (receive_result arm.arm.state) };

    ghost turns = { λ parks old next new.
        ReceiveTurn A parks old.arm.state next new.arm.state × (new.mapper ≡ old.mapper) };

    ghost withdraws = { λ old new.
        WithdrawsReceive A old.arm.state new.arm.state × (new.mapper ≡ old.mapper) };

    fn runtime(&self) -> R {
        self.arm.receiver.shared().rt
    }

    fn alloc(&self) -> A {
        self.arm.receiver.shared().alloc
    }

    fn checks(&self) -> u32 {
        self.arm.receiver.shared().checks()
    }

    fn turn(&mut self, number: usize, parker: Option<&Arc<Parker, A>>) -> ArmNext {
        self.arm.turn(number, parker)
    }

    fn withdraw(&mut self) {
        drop(self.arm.withdraw());
    }
}

impl<'a, V, T: Drop, F, R: Waits, A: Allocator + Copy> Arm<V, A> for RecvArm<'a, T, F, R, A>
where
    F: FnOnce(Result<T, RecvError>) -> V + Drop,
{
    ghost can_map = { CanMap F.pre CompletesReceive };

    ghost maps = { Maps F.post CompletesReceive };

    ghost answers = { λ arm. MapsResult F.post arm.mapper (receive_result arm.arm.state) };

    fn value(self) -> Option<V> {
        let RecvArm { arm, mapper } = self;
        match arm.state.into_result() {
            Some(result) => Some(mapper(result)),
            None => None,
        }
    }
}
