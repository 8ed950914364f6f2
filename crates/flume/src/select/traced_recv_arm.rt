//! An arm that receives, of a receiver with a trace.
ghost use Rattle.std.specs.Prelude.{◌≡◌, [], IsSome};
ghost use Rattle.flume_actions.specs.Callers.{HasMadeCalls};
ghost use Rattle.flume.specs.declared.select.receive.ReceiveState.{ReceiveState};
ghost use Rattle.flume.specs.ArmStates.{CompletesReceive, receive_result};
ghost use Rattle.flume.specs.ArmTurns.{ReceiveTurn, WithdrawsReceive};
ghost use Rattle.flume.specs.IdleArms.{left_no_message, turn_no_message};
ghost use Rattle.flume.specs.Selections.{CanMap, Maps, MapsResult};
ghost use Rattle.flume.specs.TracedArms.{CanReceiveArm, HasNoMessage, HasReceivedBy};

use crate::select::arms::{Arm, ArmTurns};
use crate::select::parties::ArmBy;
use crate::select::receive::ReceiveArm;
use crate::shared::Waits;
use crate::signal::Parker;
use crate::traced::TracedReceiver;
use flume_calls::gates::ArmNext;
use flume_core::error::RecvError;
use flume_keeper::{ChannelName, ChannelParty, Traced};
use std::alloc::{Allocator, Global};
use std::marker::Model;
use std::snapshot::Snapshot;
use std::sync::Arc;

/// An arm that receives by a party: `Selector::recv_by`.
#[derive(Drop)]
pub struct TracedRecvArm<'a, T, F, R: Waits, J: ChannelName, A: Allocator + Copy = Global> {
    arm: ReceiveArm<'a, T, R, A, Traced<T, A, J>>,
    mapper: F,
    start: Snapshot<ChannelParty<T, J, A>>,
}

impl<'a, T, F, R: Waits, J: ChannelName, A: Allocator + Copy> Model
    for TracedRecvArm<'a, T, F, R, J, A> {
    ghost use Rattle.flume_party.specs.Parties.{PartyState};
    ghost use Rattle.flume_actions.specs.Actions.{Action};
    ghost use Rattle.flume.specs.TracedArms.{CanReceiveArm, ReceiveArmValue};

    ghost Value = { ReceiveArmValue T F (PartyState (Action T A)) };

    ghost view = { λ arm. record {
      channel = arm.arm.receiver.now;
      state = arm.arm.state;
      mapper = arm.mapper;
      party = arm.arm.me;
      start = arm.start.value;
    } };

    ghost invariant = { λ arm. CanReceiveArm arm.start.value arm.arm.state arm.arm.me };
}

impl<'a, T, F, R, J, A> TracedRecvArm<'a, T, F, R, J, A>
where
    T: Drop,
    F: Drop,
    R: Waits,
    J: ChannelName,
    A: Allocator + Copy,
{
    pub(crate) fn new(
        receiver: &'a TracedReceiver<T, R, J, A>,
        me: ChannelParty<T, J, A>,
        mapper: F,
    ) -> Self
        ensures channel { result.channel ≡ receiver.now }
        ensures unstarted { result.state ≡ ReceiveState.Unstarted }
        ensures mapper { result.mapper ≡ mapper }
        ensures party { result.party ≡ me }
        ensures began { result.start ≡ me }
    {
        let start = Snapshot::of(&me);
        TracedRecvArm {
            arm: ReceiveArm::new(receiver, me),
            mapper,
            start,
        }
    }
}

impl<'a, T: Drop, R, J, A> ReceiveArm<'a, T, R, A, Traced<T, A, J>>
where
    R: Waits,
    J: ChannelName,
    A: Allocator + Copy,
{
    // No channel hands a message to an arm. If one did, all that was done to it would say so.
    fn leave_without_message(&mut self, start: &Snapshot<ChannelParty<T, J, A>>)
        requires can { CanReceiveArm start.now.value self.old.state self.old.me }
        ensures does { WithdrawsReceive A self.old.state self.new.state }
        ensures can { CanReceiveArm start.now.value self.new.state self.new.me }
        ensures none { HasNoMessage self.old.state
            → HasMadeCalls start.now.value self.new.me [] [] }
        ensures completed { IsSome (receive_result self.old.state)
            → IsSome (receive_result self.new.state) }
        ensures channel { self.new.receiver ≡ self.old.receiver }
    {
        let _ = start;
        if let Some(message) = self.withdraw() {
            drop(message);
            self.receiver.shared().confirm(&mut self.me);
            unreachable!();
        }
    }
}

impl<'a, T, F, R, J, A> ArmTurns<A> for TracedRecvArm<'a, T, F, R, J, A>
where
    T: Drop,
    F: Drop,
    R: Waits,
    J: ChannelName,
    A: Allocator + Copy,
{
    type Runtime = R;

    // With the party at the start, which stays the same, too.
    type Mapper = (F, ChannelParty<T, J, A>);

    ghost mapper = { λ arm. (arm.mapper, arm.start) };

    ghost has_completed = { λ arm. IsSome (receive_result arm.state) };

    ghost turns = { λ parks old next new.
        ReceiveTurn A parks old.state next new.state × (new.mapper ≡ old.mapper)
        × (new.start ≡ old.start) };

    ghost withdraws = { λ old new.
        WithdrawsReceive A old.state new.state × (new.mapper ≡ old.mapper)
        × (new.start ≡ old.start) };

    fn runtime(&self) -> R {
        self.arm.receiver.shared().rt
    }

    fn alloc(&self) -> A {
        self.arm.receiver.shared().alloc
    }

    fn checks(&self) -> u32 {
        self.arm.receiver.shared().checks()
    }

    fn turn(&mut self, number: usize, parker: Option<&Arc<Parker, A>>) -> ArmNext {
        self.arm.turn(number, parker)
    }

    fn withdraw(&mut self) {
        self.arm.leave_without_message(&self.start);
    }
}

impl<'a, V, T, F, R, J, A> Arm<V, A> for TracedRecvArm<'a, T, F, R, J, A>
where
    T: Drop,
    F: FnOnce(Result<T, RecvError>) -> V + Drop,
    R: Waits,
    J: ChannelName,
    A: Allocator + Copy,
{
    ghost can_map = { λ mapper. CanMap F.pre CompletesReceive mapper.0 };

    ghost maps = { λ mapper. Maps F.post CompletesReceive mapper.0 };

    ghost answers = { λ arm. MapsResult F.post arm.mapper (receive_result arm.state) };

    fn value(self) -> Option<V> {
        let TracedRecvArm { arm, mapper, .. } = self;
        match arm.state.into_result() {
            Some(result) => Some(mapper(result)),
            None => None,
        }
    }
}

impl<'a, V, T, F, R, J, A> ArmBy<V, A> for TracedRecvArm<'a, T, F, R, J, A>
where
    T: Drop,
    F: FnOnce(Result<T, RecvError>) -> V + Drop,
    R: Waits,
    J: ChannelName,
    A: Allocator + Copy,
{
    type Party = ChannelParty<T, J, A>;

    ghost is_idle = { λ arm. HasNoMessage arm.state };

    ghost completes = { λ mapper value party.
        HasReceivedBy F.post mapper.0 mapper.1 value party };

    ghost stands_by = { λ mapper party. HasMadeCalls mapper.1 party [] [] };

    ghost idle = { record {
      same_after_turn = λ parks old new next turn. λ i. (turn.1 i, turn.2 i);
      same_withdrawn = λ old new left. λ i. (left.1 i, left.2 i);
      after_turn = λ parks old new next turn none idle.
          turn_no_message A parks old.state new.state next turn.0 none idle;
      withdrawn = λ old new left idle. left_no_message A old.state new.state left.0 idle;
    } };

    fn value_by(self) -> (Option<V>, Self::Party) {
        let TracedRecvArm { arm, mapper, .. } = self;
        let ReceiveArm { state, me, .. } = arm;
        match state.into_result() {
            Some(result) => (Some(mapper(result)), me),
            None => (None, me),
        }
    }

    fn into_party(self) -> Self::Party {
        let TracedRecvArm { mut arm, start, .. } = self;
        arm.leave_without_message(&start);
        arm.me
    }
}
