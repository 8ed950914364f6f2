//! The arms of a list.
ghost use Rattle.std.specs.Prelude.{◌≡◌, ◌<◌};
ghost use Rattle.std.specs.NonZero.{non_zero_usize_get};
ghost use Rattle.flume.specs.ArmLists.{ByPlace};

use crate::select::arms::{ArmList, Arms, ArmsOn, AtLeastOneArm};
use crate::shared::Waits;
use crate::signal::Parker;
use flume_calls::gates::ArmNext;
use std::alloc::{Allocator, Global};
use std::cmp::max;
use std::num::NonZeroUsize;
use std::sync::Arc;

/// The arms before, and those of a list: `Selector::recv_each` and `Selector::send_each`.
#[derive(Drop)]
pub struct Each<L, C, F, R: Waits, A: Allocator + Copy = Global> {
    pub(crate) before: L,
    pub(crate) arms: C,
    pub(crate) mapper: F,
    // With those before.
    pub(crate) count: NonZeroUsize,
    pub(crate) rt: R,
    pub(crate) alloc: A,
}

impl<V, A: Allocator + Copy, L, C, F: Drop, R: Waits> Arms<V, A> for Each<L, C, F, R, A>
where
    L: Arms<V, A> + Drop,
    C: ArmList<V, F, A> + Drop,
{
    type Mappers = (L::Mappers, F, NonZeroUsize);

    ghost mappers = { λ list. (L.mappers list.before, list.mapper, list.count) };

    ghost count = { λ mappers. non_zero_usize_get mappers.2 };

    ghost can_map = { λ mappers. L.can_map mappers.0 × C.can_map mappers.1 };

    ghost maps = { λ mappers arm value.
        ByPlace (L.count mappers.0) (λ n. L.maps mappers.0 n value)
        (λ place. C.maps mappers.1 place value) arm };

    ghost has_completed = { λ list.
        ByPlace (L.count (L.mappers list.before)) (L.has_completed list.before)
        (C.has_completed list.arms) };

    ghost answers = { λ list arm value.
        ByPlace (L.count (L.mappers list.before)) (λ n. L.answers list.before n value)
        (λ place. C.answers list.arms list.mapper place value) arm };

    ghost turns = { λ parks old arm new next.
        ByPlace (L.count (L.mappers old.before))
        (λ n. L.turns parks old.before n new.before next × (new.arms ≡ old.arms))
        (λ place. (new.before ≡ old.before) × C.turns parks old.arms place next new.arms) arm };

    ghost withdraws = { λ old arm new.
        ByPlace (L.count (L.mappers old.before))
        (λ n. L.withdraws old.before n new.before × (new.arms ≡ old.arms))
        (λ place. (new.before ≡ old.before) × C.withdraws old.arms place new.arms) arm };

    fn count(&self) -> usize {
        self.count.get()
    }

    fn checks(&self) -> u32 {
        max(self.before.checks(), self.arms.checks())
    }

    fn turn(&mut self, arm: usize, parker: Option<&Arc<Parker, A>>) -> ArmNext {
        let before = self.before.count();
        if arm < before {
            self.before.turn(arm, parker)
        } else {
            self.arms.turn(arm - before, arm, parker)
        }
    }

    fn withdraw(&mut self, arm: usize) {
        let before = self.before.count();
        if arm < before {
            self.before.withdraw(arm);
        } else {
            self.arms.withdraw(arm - before);
        }
    }

    fn value(self, arm: usize) -> Option<V> {
        let Each {
            before,
            arms,
            mapper,
            ..
        } = self;
        let first = before.count();
        if arm < first {
            before.value(arm)
        } else {
            arms.value(arm - first, mapper)
        }
    }
}

impl<V, A: Allocator + Copy, L, C, F: Drop, R: Waits> AtLeastOneArm<V, A> for Each<L, C, F, R, A>
where
    L: Arms<V, A> + Drop,
    C: ArmList<V, F, A> + Drop,
{
    type Runtime = R;

    fn runtime(&self) -> R {
        self.rt
    }

    fn alloc(&self) -> A {
        self.alloc
    }

    fn total(&self) -> usize {
        self.count.get()
    }
}

impl<V, A: Allocator + Copy, L, C, F: Drop, R: Waits> ArmsOn<R, V, A> for Each<L, C, F, R, A>
where
    L: Arms<V, A> + Drop,
    C: ArmList<V, F, A> + Drop,
{
    fn last(&self) -> Option<(R, A)> {
        Some((self.rt, self.alloc))
    }
}
