//! Arms whose parties come back.
ghost use Rattle.std.specs.Prelude.{◌≡◌, ◌↔◌, ℕ, IfSome, IsSome};
ghost use Rattle.flume.specs.IdleArms.{StayIdle, StaysIdle, stays_idle};
ghost use Rattle.flume.specs.IdleLists.{both_stay_idle};

use crate::select::arms::{Arm, Arms};
use crate::select::recv_arm::RecvArm;
use crate::select::send_arm::SendArm;
use crate::shared::Waits;
use flume_core::error::{RecvError, SendError};
use std::alloc::Allocator;

/// An arm that has a party, which it gives back. That of an arm without a trace is `()`.
pub trait ArmBy<V, A: Allocator + Copy>: Arm<V, A> {
    type Party: Drop;

    // It has no message, which its mapper would have to get.
    ghost is_idle: { Self → Type 0 };

    // The value is its mapper's, and this is what the party did since the arm was added.
    ghost completes: { Self.Mapper → V → Self.Party → Type 0 };

    // The party of an arm that isn't the one that completed did this.
    ghost stands_by: { Self.Mapper → Self.Party → Type 0 };

    /// As `Arm::value`, with the party.
    fn value_by(self) -> (Option<V>, Self::Party)
        requires can_map { Self.can_map (Self.mapper self) }
        ensures completed { Self.has_completed self ↔ IsSome result.0 }
        ensures answers { IfSome result.0 (Self.answers self) }
        ensures maps { IfSome result.0 (Self.maps (Self.mapper self)) }
        ensures completes { IfSome result.0 (λ value.
            completes (Self.mapper self) value result.1) };

    /// The party alone. The arm is withdrawn first, if it is parked.
    fn into_party(self) -> Self::Party
        ensures stands_by { is_idle self → stands_by (Self.mapper self) result };

    ghost idle: { StaysIdle Self.mapper is_idle Self.turns Self.withdraws };
}

/// The arms of a selector, with their parties.
pub trait ArmsBy<V, A: Allocator + Copy>: Arms<V, A> {
    /// As the arms are listed: `((), P)` for one arm with a party `P`.
    type Parties: Drop;

    ghost all_idle: { Self → Type 0 };

    // All but the arm with this number.
    ghost others_idle: { Self → ℕ → Type 0 };

    // One of them completed, with this value.
    ghost completes: { Self.Mappers → V → Self.Parties → Type 0 };

    // None completed.
    ghost stand_by: { Self.Mappers → Self.Parties → Type 0 };

    /// As `Arms::value`, with the parties of all arms.
    fn value_by(self, arm: usize) -> (Option<V>, Self::Parties)
        requires can_map { Self.can_map (Self.mappers self) }
        ensures completed { Self.has_completed self arm ↔ IsSome result.0 }
        ensures answers { IfSome result.0 (Self.answers self arm) }
        ensures maps { IfSome result.0 (Self.maps (Self.mappers self) arm) }
        ensures completes { others_idle self arm
            → IfSome result.0 (λ value. completes (Self.mappers self) value result.1) };

    /// The parties alone. Arms that are parked are withdrawn first.
    fn into_parties(self) -> Self::Parties
        ensures stand_by { all_idle self → stand_by (Self.mappers self) result };

    ghost idle: { StayIdle Self.mappers all_idle others_idle Self.turns Self.withdraws };
}

impl<V, A: Allocator + Copy> ArmsBy<V, A> for () {
    ghost use Rattle.std.proofs.Common.{refl};

    type Parties = ();

    ghost all_idle = { λ _. Unit {0} };

    ghost others_idle = { λ _ _. Unit {0} };

    ghost completes = { λ _ _ _. ⊥ };

    ghost stand_by = { λ _ _. Unit {0} };

    ghost idle = { record {
      same_after_turn = λ parks old new arm next turn. refl;
      same_withdrawn = λ old new arm left. refl;
      after_turn = λ parks old new arm next turn none idle. tt;
      completed = λ parks old new arm next turn idle. tt;
      withdrawn = λ old new arm left idle. tt;
      others_withdrawn = λ old new arm other left idle. tt;
    } };

    fn value_by(self, _arm: usize) -> (Option<V>, ()) {
        (None, ())
    }

    fn into_parties(self) {}
}

impl<V, A: Allocator + Copy, L: ArmsBy<V, A> + Drop, C: ArmBy<V, A> + Drop> ArmsBy<V, A>
    for (L, C) {
    ghost use Rattle.std.specs.Prelude.{◌⊎◌};
    ghost use Rattle.flume.specs.Selections.{ByNumber};

    type Parties = (L::Parties, C::Party);

    ghost all_idle = { λ arms. L.all_idle arms.0 × C.is_idle arms.1 };

    ghost others_idle = { λ arms arm. ByNumber (L.count (L.mappers arms.0))
        (λ n. L.others_idle arms.0 n × C.is_idle arms.1) (L.all_idle arms.0) arm };

    ghost completes = { λ mappers value parties.
        (L.completes mappers.0 value parties.0 × C.stands_by mappers.1 parties.1)
        ⊎ (L.stand_by mappers.0 parties.0 × C.completes mappers.1 value parties.1) };

    ghost stand_by = { λ mappers parties.
        L.stand_by mappers.0 parties.0 × C.stands_by mappers.1 parties.1 };

    ghost idle = { both_stay_idle L.count L.mappers L.all_idle L.others_idle L.turns L.withdraws
        C.mapper C.is_idle C.turns C.withdraws L.idle C.idle };

    fn value_by(self, arm: usize) -> (Option<V>, Self::Parties) {
        let (before, last) = self;
        if arm == before.count() {
            let parties = before.into_parties();
            let (value, party) = last.value_by();
            (value, (parties, party))
        } else {
            let party = last.into_party();
            let (value, parties) = before.value_by(arm);
            (value, (parties, party))
        }
    }

    fn into_parties(self) -> Self::Parties {
        let (before, last) = self;
        let parties = before.into_parties();
        (parties, last.into_party())
    }
}

impl<'a, V, T: Drop, F, R: Waits, A: Allocator + Copy> ArmBy<V, A> for RecvArm<'a, T, F, R, A>
where
    F: FnOnce(Result<T, RecvError>) -> V + Drop,
{
    type Party = ();

    ghost is_idle = { λ _. Unit {0} };

    ghost completes = { λ _ _ _. Unit {0} };

    ghost stands_by = { λ _ _. Unit {0} };

    ghost idle = { stays_idle (λ parks old new next turn. turn.1) (λ old new left. left.1) };

    fn value_by(self) -> (Option<V>, ()) {
        (self.value(), ())
    }

    fn into_party(self) {}
}

impl<'a, V, T: Drop, F, R: Waits, A: Allocator + Copy> ArmBy<V, A> for SendArm<'a, T, F, R, A>
where
    F: FnOnce(Result<(), SendError<T>>) -> V + Drop,
{
    type Party = ();

    ghost is_idle = { λ _. Unit {0} };

    ghost completes = { λ _ _ _. Unit {0} };

    ghost stands_by = { λ _ _. Unit {0} };

    ghost idle = { stays_idle (λ parks old new next turn. turn.1) (λ old new left. left.1) };

    fn value_by(self) -> (Option<V>, ()) {
        (self.value(), ())
    }

    fn into_party(self) {}
}
