//! A *trace*: what was done to one thing, such as the value behind a lock, the oldest first. It
//! exists in proofs only: no type here has bytes, and no function does anything.
//!
//! A trace is a list of *writes*, and a write is a list of *actions*. An action is of a type `E`
//! that the user chooses; no value of it is ever made. Who has the `Trace` appends to it, and each
//! write has a *position*. A `Claim` owns positions that no other claim has, and remembers how much
//! of the trace it has seen.
//! ```
//! let (mut trace, mut first) = UnopenedTrace::new().open::<u64, Brand>();
//! let mut second = first.split_off();
//! trace.append::<u64, Once>(&mut first, &7);
//! trace.append::<u64, Once>(&mut second, &8);
//! first.merge(second);
//! ```
//! `first` has seen both writes now, and both positions are its own. Who has a position stays apart
//! from what is there: `flume_party` counts positions, and so says which actions are whose.
#![tactic(auto)]

ghost use Rattle.std.specs.Prelude.{◌≡◌, ℕ, List, []};
ghost use base.Stored.{coded_list, coded_ℕ};
ghost use Rattle.flume_trace.specs.Changes.{Appended, Joined};
ghost use Rattle.flume_trace.specs.Tokens.{unopened_owns, trace_owns, claim_owns};

use std::marker::{Brand, Model, PhantomData};

/// Which trace it is. A function over any `J: TraceName` is called with `Brand`, and the caller's
/// proof picks the names of the `UnopenedTrace` that it passes.
pub trait TraceName {
    ghost trace_name: { ℕ };

    ghost positions_name: { ℕ };
}

impl TraceName for Brand {
    ghost trace_name = { 0 };

    ghost positions_name = { 0 };
}

/// Which writes may be appended, by some evidence and the writes before.
pub trait Appends<V, E> {
    ghost may: { V → List (List E) → List (List E) → Type 0 };
}

/// An empty trace that no type stands for yet.
#[derive(Drop)]
pub struct UnopenedTrace {
    marker: PhantomData<()>,
    pub ghost trace_name: { ℕ },
    pub ghost positions_name: { ℕ },
}

impl Model for UnopenedTrace {
    ghost also_owns = { λ u. unopened_owns u.trace_name u.positions_name };
}

/// The trace of the name `J`. There is one, so nobody else can append to it.
#[derive(Drop)]
pub struct Trace<E, J: TraceName> {
    marker: PhantomData<(E, J)>,
    pub ghost writes: { List (List E) } by { coded_list (coded_list E.code) },
}

impl<E, J: TraceName> Model for Trace<E, J> {
    ghost also_owns = { λ t. trace_owns E.row.coded.code J.trace_name J.positions_name t.writes };
}

/// Positions of the trace `J` that no other claim has, and what the claim has seen of the trace.
/// The positions of a claim that is dropped are lost: no claim has them again.
#[derive(Drop)]
pub struct Claim<E, J: TraceName> {
    marker: PhantomData<(E, J)>,
    pub ghost seen: { List (List E) } by { coded_list (coded_list E.code) },
    pub ghost positions: { List ℕ } by { coded_list coded_ℕ },
}

impl<E, J: TraceName> Model for Claim<E, J> {
    ghost also_owns = { λ c. claim_owns E.row.coded.code J.trace_name J.positions_name c.seen c.positions };
}

impl UnopenedTrace {
    /// An empty trace.
    pub fn new() -> UnopenedTrace {
        UnopenedTrace {
            marker: PhantomData,
        }
    }

    /// The trace gets a type, and a claim without a position.
    pub fn open<E, J: TraceName>(self) -> (Trace<E, J>, Claim<E, J>)
        requires names { (self.trace_name ≡ J.trace_name)
            × (self.positions_name ≡ J.positions_name) }
        ensures empty { (result.0.writes ≡ [])
            × (result.1.seen ≡ []) × (result.1.positions ≡ []) }
    {
        let Self { marker: _ } = self;
        (
            Trace {
                marker: PhantomData,
            },
            Claim {
                marker: PhantomData,
            },
        )
    }
}

impl<E, J: TraceName> Trace<E, J> {
    /// Appends writes that `M` allows, usually one. Their positions become the claim's, which has
    /// seen the whole trace then. No write may be allowed too: so the claim sees what was appended.
    /// ```
    /// let (mut trace, mut claim) = UnopenedTrace::new().open::<u64, Brand>();
    /// trace.append::<u64, Once>(&mut claim, &7);
    /// ```
    pub fn append<V, M: Appends<V, E>>(&mut self, claim: &mut Claim<E, J>, evidence: &V)
        requires some { (more : List (List E)) × M.may evidence.now self.old.writes more }
        ensures appended { Appended (M.may evidence.now self.old.writes)
            self.old.writes self.new.writes claim.old.seen claim.new.seen
            claim.old.positions claim.new.positions }
    {}
}

impl<E, J: TraceName> Claim<E, J> {
    /// A claim that has seen as much, without a position.
    pub fn split_off(&mut self) -> Claim<E, J>
        ensures unchanged { self.new ≡ self.old }
        ensures new { (result.seen ≡ self.old.seen) × (result.positions ≡ []) }
    {
        Claim {
            marker: PhantomData,
        }
    }

    /// Takes in the positions of another claim, and what it has seen.
    pub fn merge(&mut self, other: Claim<E, J>)
        ensures joined { Joined self.old.seen other.seen self.new.seen
            self.old.positions other.positions self.new.positions }
    {
        let Self { marker: _ } = other;
    }
}

// `Send` is proved for each, in `proofs/`: what they own isn't tied to a thread.
unsafe impl Send for UnopenedTrace {}

unsafe impl<E, J: TraceName> Send for Trace<E, J> {}

unsafe impl<E, J: TraceName> Send for Claim<E, J> {}
