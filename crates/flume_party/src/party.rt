//! One who acts, and knows its own actions.
ghost use Rattle.std.specs.Prelude.{◌≡◌, ◌<◌, List, [], filter};
ghost use Rattle.flume_party.specs.Owners.{AreOwned};
ghost use Rattle.flume_party.specs.Interleavings.{Interleaving};
ghost use Rattle.flume_party.specs.Parties.{party_of, without_parts, Recorded, Merged};

use crate::records::{AllOwned, NoWrite, OwnedWrite, Ownership, Records};
use crate::shared_trace::SharedTrace;
use flume_trace::{Claim, TraceName};
use std::marker::{Model, PhantomData};
use std::sync::ledger::{Ledger, Share};

/// Some parts of the right to act, at least one, and the actions that were made by them. Contracts
/// see a `PartyState`. The parts of a party that is dropped are lost: no party has all then.
#[derive(Drop)]
pub struct Party<E, J: TraceName + Ledger, O: Ownership<E> = AllOwned> {
    claim: Claim<E, J>,
    // its amount is the number of the claim's positions
    share: Share<J>,
    ownership: PhantomData<O>,
}

impl<E, J: TraceName + Ledger, O: Ownership<E>> Model for Party<E, J, O> {
    ghost use Rattle.flume_party.specs.Owners.{actions_of};
    ghost use Rattle.flume_party.specs.Picks.{HasParts, picked};
    ghost use Rattle.flume_party.specs.Parties.{PartyState, party_of};

    ghost Value = { PartyState E };

    ghost view = { λ p.
        party_of p.share.parts (actions_of (picked p.claim.positions p.claim.seen)) };

    ghost invariant = { λ p. HasParts O.is_owned p.share.parts p.share.amount
        p.claim.seen p.claim.positions };
}

impl<E, J: TraceName + Ledger, O: Ownership<E>> Party<E, J, O> {
    pub(crate) fn new(claim: Claim<E, J>, share: Share<J>) -> Party<E, J, O>
        requires nothing { (claim.seen ≡ []) × (claim.positions ≡ []) × (share.amount ≡ 0) }
        requires some { 0 < share.parts }
        ensures parts { result ≡ party_of share.parts [] }
    {
        Party {
            claim,
            share,
            ownership: PhantomData,
        }
    }

    /// Records what the party does: actions that `M` allows, each with an owner. If `M` allows
    /// several lists, the clause says that one of them was recorded, and not which.
    /// ```
    /// party.record::<u64, Once>(&mut trace, &7);
    /// ```
    pub fn record<V, M: Records<V, E>>(&mut self, trace: &mut SharedTrace<E, J, O>, evidence: &V)
        requires some { (actions : List E)
            × M.may evidence.now trace.old actions × AreOwned O.is_owned actions }
        ensures recorded { Recorded (M.may evidence.now trace.old) O.is_owned
            trace.old trace.new self.old self.new }
    {
        trace
            .trace
            .append::<V, OwnedWrite<M, O>>(&mut self.claim, evidence);
        trace.book.add(&mut self.share, 1);
    }

    /// Changes nothing. Its clauses say: the party's actions stand in the trace, in their order; and
    /// if it has all parts, they are all that have an owner.
    /// ```
    /// party.audit(&mut trace);
    /// ```
    pub fn audit(&mut self, trace: &mut SharedTrace<E, J, O>)
        ensures trace { trace.new ≡ trace.old }
        ensures party { self.new ≡ self.old }
        ensures part { (others : List E) × Interleaving self.old.actions others trace.old }
        ensures all { self.old.parts ≡ J.parts
            → self.old.actions ≡ filter O.is_owned trace.old }
    {
        trace.trace.append::<(), NoWrite>(&mut self.claim, &());
        trace.book.audit(&mut self.share);
    }

    /// A party with some of the parts, but not all, and without an action.
    /// ```
    /// let other = party.split_off(1);
    /// ```
    pub fn split_off(&mut self, parts: u64) -> Party<E, J, O>
        requires some { 0 < parts }
        requires fewer { parts < self.old.parts }
        ensures new { result ≡ party_of parts [] }
        ensures rest { self.new ≡ without_parts self.old parts }
    {
        let claim = self.claim.split_off();
        let share = self.share.split_off(parts, 0);
        Party {
            claim,
            share,
            ownership: PhantomData,
        }
    }

    /// Takes in another party: its parts, and its actions.
    /// ```
    /// party.merge(other);
    /// ```
    pub fn merge(&mut self, other: Party<E, J, O>)
        ensures merged { Merged self.old other self.new }
    {
        let Party {
            claim,
            share,
            ownership: _,
        } = other;
        self.claim.merge(claim);
        self.share.merge(share);
    }
}
