//! The arms of a selector, listed in a type.
ghost use Rattle.std.specs.Prelude.{◌≡◌, ◌<◌, ◌↔◌, ℕ, Bool, IfSome, IsSome, is_some};
ghost use Rattle.flume_calls.specs.declared.gates.select.ArmNext.{ArmNext};

use crate::shared::Waits;
use crate::signal::Parker;
use flume_calls::gates::ArmNext;
use std::alloc::Allocator;
use std::cmp::max;
use std::sync::Arc;

/// What a selection does to one of its arms, `SendArm` or `RecvArm`.
pub trait ArmTurns<A: Allocator + Copy> {
    type Runtime: Waits;

    /// What maps its result to a value.
    type Mapper;

    ghost mapper: { Self → Self.Mapper };

    ghost has_completed: { Self → Type 0 };

    ghost turns: { Bool → Self → ArmNext → Self → Type 0 };

    ghost withdraws: { Self → Self → Type 0 };

    /// The runtime of its channel.
    fn runtime(&self) -> Self::Runtime;

    /// The allocator of its channel.
    fn alloc(&self) -> A;

    /// How often a call on its channel checks for its wake before it sleeps.
    fn checks(&self) -> u32;

    /// Starts the arm, or polls it. It parks only with a parker, and leaves a copy with its number.
    fn turn(&mut self, number: usize, parker: Option<&Arc<Parker, A>>) -> ArmNext
        ensures does { turns (is_some parker.entry) self.old result self.new }
        ensures completed { result ≡ ArmNext.Completed → has_completed self.new }
        ensures mapper { mapper self.new ≡ mapper self.old };

    /// Takes it out of its channel if it is parked. A message that comes back is dropped.
    fn withdraw(&mut self)
        ensures does { withdraws self.old self.new }
        ensures completed { has_completed self.old → has_completed self.new }
        ensures mapper { mapper self.new ≡ mapper self.old };
}

/// One thing that a selector waits for, with the mapper of its result to a value.
pub trait Arm<V, A: Allocator + Copy>: ArmTurns<A> {
    ghost can_map: { Self.Mapper → Type 0 };

    ghost maps: { Self.Mapper → V → Type 0 };

    ghost answers: { Self → V → Type 0 };

    /// What its mapper answers to its result. `None`: it hasn't completed.
    fn value(self) -> Option<V>
        requires can_map { can_map (Self.mapper self) }
        ensures completed { Self.has_completed self ↔ IsSome result }
        ensures answers { IfSome result (answers self) }
        ensures maps { IfSome result (maps (Self.mapper self)) };
}

/// The arms of a list, which share a mapper, which also gets an arm's place in the list.
pub trait ArmList<V, F, A: Allocator + Copy> {
    ghost can_map: { F → Type 0 };

    ghost maps: { F → ℕ → V → Type 0 };

    ghost has_completed: { Self → ℕ → Type 0 };

    ghost answers: { Self → F → ℕ → V → Type 0 };

    ghost turns: { Bool → Self → ℕ → ArmNext → Self → Type 0 };

    ghost withdraws: { Self → ℕ → Self → Type 0 };

    /// The greatest of their numbers of checks.
    fn checks(&self) -> u32;

    /// The turn of the arm at this place, if there is one. In the selector it has this number.
    fn turn(&mut self, place: usize, number: usize, parker: Option<&Arc<Parker, A>>) -> ArmNext
        ensures does { turns (is_some parker.entry) self.old place result self.new }
        ensures completed { result ≡ ArmNext.Completed → has_completed self.new place };

    /// Withdraws the arm at this place, if there is one.
    fn withdraw(&mut self, place: usize)
        ensures does { withdraws self.old place self.new }
        ensures completed { (other : ℕ) → has_completed self.old other
            → has_completed self.new other };

    /// As `Arm::value`, of the arm at this place; `None` also if there is no such arm.
    fn value(self, place: usize, mapper: F) -> Option<V>
        requires can_map { can_map mapper }
        ensures completed { has_completed self place ↔ IsSome result }
        ensures answers { IfSome result (answers self mapper place) }
        ensures maps { IfSome result (maps mapper place) };
}

/// The arms of a selector, numbered from 0 in the order in which they were added.
pub trait Arms<V, A: Allocator + Copy> {
    /// Their mappers, and how many arms each list has.
    type Mappers;

    ghost mappers: { Self → Self.Mappers };

    ghost count: { Self.Mappers → ℕ };

    ghost can_map: { Self.Mappers → Type 0 };

    ghost maps: { Self.Mappers → ℕ → V → Type 0 };

    ghost has_completed: { Self → ℕ → Type 0 };

    ghost answers: { Self → ℕ → V → Type 0 };

    // As in `SelectGate`.
    ghost turns: { Bool → Self → ℕ → Self → ArmNext → Type 0 };

    ghost withdraws: { Self → ℕ → Self → Type 0 };

    /// How many there are.
    fn count(&self) -> usize
        ensures count { result ≡ count (mappers self.now) };

    /// The greatest of their numbers of checks.
    fn checks(&self) -> u32;

    /// The turn of the arm with this number, if there is one.
    fn turn(&mut self, arm: usize, parker: Option<&Arc<Parker, A>>) -> ArmNext
        ensures does { turns (is_some parker.entry) self.old arm self.new result }
        ensures completed { result ≡ ArmNext.Completed → has_completed self.new arm }
        ensures mappers { mappers self.new ≡ mappers self.old };

    /// Withdraws the arm with this number, if there is one.
    fn withdraw(&mut self, arm: usize)
        ensures does { withdraws self.old arm self.new }
        ensures completed { (other : ℕ) → has_completed self.old other
            → has_completed self.new other }
        ensures mappers { mappers self.new ≡ mappers self.old };

    /// As `Arm::value`, of the arm with this number; `None` also if there is no such arm.
    fn value(self, arm: usize) -> Option<V>
        requires can_map { can_map (mappers self) }
        ensures completed { has_completed self arm ↔ IsSome result }
        ensures answers { IfSome result (answers self arm) }
        ensures maps { IfSome result (maps (mappers self) arm) };
}

/// Arms that can be waited for, since there is one.
pub trait AtLeastOneArm<V, A: Allocator + Copy>: Arms<V, A> {
    type Runtime: Waits;

    /// The runtime of the last arm's channel.
    fn runtime(&self) -> Self::Runtime;

    /// The allocator of the last arm's channel.
    fn alloc(&self) -> A;

    /// How many arms there are.
    fn total(&self) -> usize
        ensures count { result ≡ Self.count (Self.mappers self.now) }
        ensures has_one { 0 < result };
}

/// Arms to which those of a list can be added: their channels have this type of runtime.
pub trait ArmsOn<R: Waits, V, A: Allocator + Copy>: Arms<V, A> {
    /// The runtime and the allocator of the last arm's channel. `None`: there is no arm.
    fn last(&self) -> Option<(R, A)>
        ensures last { IsSome result ↔ (0 < Self.count (Self.mappers self.now)) };
}

impl<V, A: Allocator + Copy> Arms<V, A> for () {
    ghost use Rattle.std.specs.Prelude.{◌≡◌};
    ghost use Rattle.flume_calls.specs.declared.gates.select.ArmNext.TheVariants.{NoMemory};

    type Mappers = ();

    ghost mappers = { λ _. tt };

    ghost count = { λ _. 0 };

    ghost can_map = { λ _. Unit {0} };

    ghost maps = { λ _ _ _. ⊥ };

    ghost has_completed = { λ _ _. ⊥ };

    ghost answers = { λ _ _ _. ⊥ };

    ghost turns = { λ _ old _ new next. (next ≡ NoMemory) × (new ≡ old) };

    ghost withdraws = { λ old _ new. new ≡ old };

    fn count(&self) -> usize {
        0
    }

    fn checks(&self) -> u32 {
        0
    }

    fn turn(&mut self, _arm: usize, _parker: Option<&Arc<Parker, A>>) -> ArmNext {
        ArmNext::NoMemory
    }

    fn withdraw(&mut self, _arm: usize) {}

    fn value(self, _arm: usize) -> Option<V> {
        None
    }
}

impl<V, A: Allocator + Copy, L: Arms<V, A> + Drop, C: Arm<V, A> + Drop> Arms<V, A> for (L, C) {
    ghost use Rattle.flume.specs.Selections.{count_one_more, ByNumber};

    type Mappers = (L::Mappers, C::Mapper);

    ghost mappers = { λ arms. (L.mappers arms.0, C.mapper arms.1) };

    ghost count = { λ mappers. count_one_more (L.count mappers.0) };

    ghost can_map = { λ mappers. L.can_map mappers.0 × C.can_map mappers.1 };

    ghost maps = { λ mappers arm value.
        ByNumber (L.count mappers.0) (λ n. L.maps mappers.0 n value) (C.maps mappers.1 value) arm };

    ghost has_completed = { λ arms.
        ByNumber (L.count (L.mappers arms.0)) (L.has_completed arms.0)
        (C.has_completed arms.1) };

    ghost answers = { λ arms arm value.
        ByNumber (L.count (L.mappers arms.0)) (λ n. L.answers arms.0 n value)
        (C.answers arms.1 value) arm };

    ghost turns = { λ parks old arm new next.
        ByNumber (L.count (L.mappers old.0))
        (λ n. L.turns parks old.0 n new.0 next × (new.1 ≡ old.1))
        (C.turns parks old.1 next new.1 × (new.0 ≡ old.0)) arm };

    ghost withdraws = { λ old arm new.
        ByNumber (L.count (L.mappers old.0))
        (λ n. L.withdraws old.0 n new.0 × (new.1 ≡ old.1))
        (C.withdraws old.1 new.1 × (new.0 ≡ old.0)) arm };

    fn count(&self) -> usize {
        self.0.count().saturating_add(1)
    }

    fn checks(&self) -> u32 {
        max(self.0.checks(), self.1.checks())
    }

    fn turn(&mut self, arm: usize, parker: Option<&Arc<Parker, A>>) -> ArmNext {
        if arm == self.0.count() {
            self.1.turn(arm, parker)
        } else {
            self.0.turn(arm, parker)
        }
    }

    fn withdraw(&mut self, arm: usize) {
        if arm == self.0.count() {
            self.1.withdraw();
        } else {
            self.0.withdraw(arm);
        }
    }

    fn value(self, arm: usize) -> Option<V> {
        let (before, last) = self;
        if arm == before.count() {
            last.value()
        } else {
            before.value(arm)
        }
    }
}

impl<V, A: Allocator + Copy, L: Arms<V, A> + Drop, C: Arm<V, A> + Drop> AtLeastOneArm<V, A>
    for (L, C) {
    type Runtime = C::Runtime;

    fn runtime(&self) -> C::Runtime {
        self.1.runtime()
    }

    fn alloc(&self) -> A {
        self.1.alloc()
    }

    fn total(&self) -> usize {
        self.0.count().saturating_add(1)
    }
}

impl<R: Waits, V, A: Allocator + Copy> ArmsOn<R, V, A> for () {
    fn last(&self) -> Option<(R, A)> {
        None
    }
}

impl<R: Waits, V, A: Allocator + Copy, L, C> ArmsOn<R, V, A> for (L, C)
where
    L: Arms<V, A> + Drop,
    C: Arm<V, A> + ArmTurns<A, Runtime = R> + Drop,
{
    fn last(&self) -> Option<(R, A)> {
        Some((self.1.runtime(), self.1.alloc()))
    }
}
