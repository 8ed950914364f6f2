//! An arm that sends, of a sender with a trace.
ghost use Rattle.std.specs.Prelude.{◌≡◌, IsSome};
ghost use Rattle.flume.specs.declared.select.send.SendState.{SendState};
ghost use Rattle.flume.specs.ArmStates.{CompletesSend, send_result};
ghost use Rattle.flume.specs.ArmTurns.{SendTurn, WithdrawsSend};
ghost use Rattle.flume.specs.IdleArms.{stays_idle};
ghost use Rattle.flume.specs.Selections.{CanMap, Maps, MapsResult};
ghost use Rattle.flume.specs.TracedArms.{HasSentBy, MaySend};

use crate::select::arms::{Arm, ArmTurns};
use crate::select::parties::ArmBy;
use crate::select::send::OfferArm;
use crate::shared::Waits;
use crate::signal::Parker;
use crate::traced::TracedSender;
use flume_calls::gates::ArmNext;
use flume_core::error::SendError;
use flume_keeper::{ChannelName, ChannelParty, Traced};
use std::alloc::{Allocator, Global};
use std::marker::Model;
use std::snapshot::Snapshot;
use std::sync::Arc;

/// An arm that sends by a party: `Selector::send_by`.
#[derive(Drop)]
pub struct TracedSendArm<'a, T, F, R: Waits, J: ChannelName, A: Allocator + Copy = Global> {
    arm: OfferArm<'a, T, R, A, Traced<T, A, J>>,
    mapper: F,
    message: Snapshot<T>,
    start: Snapshot<ChannelParty<T, J, A>>,
}

impl<'a, T, F, R: Waits, J: ChannelName, A: Allocator + Copy> Model
    for TracedSendArm<'a, T, F, R, J, A> {
    ghost use Rattle.flume_party.specs.Parties.{PartyState};
    ghost use Rattle.flume_actions.specs.Actions.{Action};
    ghost use Rattle.flume.specs.TracedArms.{CanSendArm, SendArmValue};

    ghost Value = { SendArmValue T F (PartyState (Action T A)) };

    ghost view = { λ arm. record {
      channel = arm.arm.sender.now;
      state = arm.arm.state;
      mapper = arm.mapper;
      message = arm.message.value;
      party = arm.arm.me;
      start = arm.start.value;
    } };

    ghost invariant = { λ arm.
        CanSendArm arm.start.value arm.message.value arm.arm.state arm.arm.me };
}

impl<'a, T, F, R, J, A> TracedSendArm<'a, T, F, R, J, A>
where
    T: Drop,
    F: Drop,
    R: Waits,
    J: ChannelName,
    A: Allocator + Copy,
{
    pub(crate) fn new(
        sender: &'a TracedSender<T, R, J, A>,
        me: ChannelParty<T, J, A>,
        message: T,
        mapper: F,
    ) -> Self
        ensures channel { result.channel ≡ sender.now }
        ensures unstarted { result.state ≡ SendState.Unstarted message }
        ensures mapper { result.mapper ≡ mapper }
        ensures message { result.message ≡ message }
        ensures party { result.party ≡ me }
        ensures began { result.start ≡ me }
    {
        let start = Snapshot::of(&me);
        let offered = Snapshot::of(&message);
        TracedSendArm {
            arm: OfferArm::new(sender, me, message),
            mapper,
            message: offered,
            start,
        }
    }
}

impl<'a, T, F, R, J, A> ArmTurns<A> for TracedSendArm<'a, T, F, R, J, A>
where
    T: Drop,
    F: Drop,
    R: Waits,
    J: ChannelName,
    A: Allocator + Copy,
{
    type Runtime = R;

    // With the message, and the party at the start, which stay the same, too.
    type Mapper = (F, T, ChannelParty<T, J, A>);

    ghost mapper = { λ arm. (arm.mapper, arm.message, arm.start) };

    ghost has_completed = { λ arm. IsSome (send_result arm.state) };

    ghost turns = { λ parks old next new.
        SendTurn A parks old.state next new.state × (new.mapper ≡ old.mapper)
        × (new.message ≡ old.message) × (new.start ≡ old.start) };

    ghost withdraws = { λ old new.
        WithdrawsSend A old.state new.state × (new.mapper ≡ old.mapper)
        × (new.message ≡ old.message) × (new.start ≡ old.start) };

    fn runtime(&self) -> R {
        self.arm.sender.shared().rt
    }

    fn alloc(&self) -> A {
        self.arm.sender.shared().alloc
    }

    fn checks(&self) -> u32 {
        self.arm.sender.shared().checks()
    }

    fn turn(&mut self, number: usize, parker: Option<&Arc<Parker, A>>) -> ArmNext {
        self.arm.turn(number, parker)
    }

    fn withdraw(&mut self) {
        self.arm.withdraw();
    }
}

impl<'a, V, T, F, R, J, A> Arm<V, A> for TracedSendArm<'a, T, F, R, J, A>
where
    T: Drop,
    F: FnOnce(Result<(), SendError<T>>) -> V + Drop,
    R: Waits,
    J: ChannelName,
    A: Allocator + Copy,
{
    ghost can_map = { λ mapper. CanMap F.pre CompletesSend mapper.0 };

    ghost maps = { λ mapper. Maps F.post CompletesSend mapper.0 };

    ghost answers = { λ arm. MapsResult F.post arm.mapper (send_result arm.state) };

    fn value(self) -> Option<V> {
        let TracedSendArm { arm, mapper, .. } = self;
        match arm.state.into_result() {
            Some(result) => Some(mapper(result)),
            None => None,
        }
    }
}

impl<'a, V, T, F, R, J, A> ArmBy<V, A> for TracedSendArm<'a, T, F, R, J, A>
where
    T: Drop,
    F: FnOnce(Result<(), SendError<T>>) -> V + Drop,
    R: Waits,
    J: ChannelName,
    A: Allocator + Copy,
{
    type Party = ChannelParty<T, J, A>;

    ghost is_idle = { λ _. Unit {0} };

    ghost completes = { λ mapper value party.
        HasSentBy F.post mapper.0 mapper.2 mapper.1 value party };

    ghost stands_by = { λ mapper party. MaySend mapper.2 mapper.1 party };

    ghost idle = { stays_idle (λ parks old new next turn. λ i. (turn.1 i, turn.2 i, turn.3 i))
        (λ old new left. λ i. (left.1 i, left.2 i, left.3 i)) };

    fn value_by(self) -> (Option<V>, Self::Party) {
        let TracedSendArm { arm, mapper, .. } = self;
        let OfferArm { state, me, .. } = arm;
        match state.into_result() {
            Some(result) => (Some(mapper(result)), me),
            None => (None, me),
        }
    }

    fn into_party(self) -> Self::Party {
        let TracedSendArm { mut arm, .. } = self;
        arm.withdraw();
        arm.me
    }
}
