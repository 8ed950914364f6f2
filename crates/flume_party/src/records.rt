//! Which actions may be recorded, and which have an owner.

use flume_trace::Appends;
use std::marker::PhantomData;

/// Which actions have an owner: those of parties. The others may be made by anybody.
pub trait Ownership<E> {
    ghost use Rattle.std.specs.Prelude.{Bool};

    ghost is_owned: { E → Bool };
}

/// Every action has an owner.
pub struct AllOwned;

impl<E> Ownership<E> for AllOwned {
    ghost use Rattle.std.specs.Prelude.{true};

    ghost is_owned = { λ action. true };
}

/// Which actions may be recorded, by some evidence and the actions before. The evidence is what the
/// caller has to show for them, such as a call's arguments and its answer. Several actions are
/// recorded at once if they were made under one lock.
pub trait Records<V, E> {
    ghost use Rattle.std.specs.Prelude.{List};

    ghost may: { V → List E → List E → Type 0 };
}

/// One write, of actions that have an owner.
pub(crate) struct OwnedWrite<M, O> {
    of: PhantomData<(M, O)>,
}

impl<V, E, M: Records<V, E>, O: Ownership<E>> Appends<V, E> for OwnedWrite<M, O> {
    ghost use Rattle.std.specs.Prelude.{◌≡◌, List, [], ◌∷◌};
    ghost use Rattle.flume_party.specs.Owners.{actions_of, AreOwned};

    ghost may = { λ evidence writes more. (actions : List E)
        × M.may evidence (actions_of writes) actions
        × AreOwned O.is_owned actions × (more ≡ actions ∷ []) };
}

/// One write, of actions that have none.
pub(crate) struct UnownedWrite<M, O> {
    of: PhantomData<(M, O)>,
}

impl<V, E, M: Records<V, E>, O: Ownership<E>> Appends<V, E> for UnownedWrite<M, O> {
    ghost use Rattle.std.specs.Prelude.{◌≡◌, List, [], ◌∷◌};
    ghost use Rattle.flume_party.specs.Owners.{actions_of, AreUnowned};

    ghost may = { λ evidence writes more. (actions : List E)
        × M.may evidence (actions_of writes) actions
        × AreUnowned O.is_owned actions × (more ≡ actions ∷ []) };
}

/// No write.
pub(crate) struct NoWrite;

impl<E> Appends<(), E> for NoWrite {
    ghost use Rattle.std.specs.Prelude.{◌≡◌, []};

    ghost may = { λ evidence writes more. more ≡ [] };
}
