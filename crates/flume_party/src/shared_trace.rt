//! The trace that parties share.
ghost use Rattle.std.specs.Prelude.{◌≡◌, ◌<◌, ◌++◌, List, []};
ghost use Rattle.flume_party.specs.Owners.{AreUnowned};
ghost use Rattle.flume_party.specs.Parties.{party_of};

use crate::party::Party;
use crate::records::{AllOwned, Ownership, Records, UnownedWrite};
use flume_trace::{Claim, Trace, TraceName, UnopenedTrace};
use std::marker::{Model, PhantomData};
use std::sync::ledger::{self, Book, Ledger};

/// All actions that were made, by parties and by nobody. Contracts see a list, the oldest first.
/// The lock that protects what the actions are made on protects this too.
#[derive(Drop)]
pub struct SharedTrace<E, J: TraceName + Ledger, O: Ownership<E> = AllOwned> {
    pub(crate) trace: Trace<E, J>,
    // the number of writes of parties
    pub(crate) book: Book<J>,
    // what actions without an owner are appended by
    nobody: Claim<E, J>,
    ownership: PhantomData<O>,
}

impl<E, J: TraceName + Ledger, O: Ownership<E>> Model for SharedTrace<E, J, O> {
    ghost use Rattle.std.specs.Prelude.{List};
    ghost use Rattle.flume_party.specs.Owners.{actions_of, AreCounted};

    ghost Value = { List E };

    ghost view = { λ s. actions_of s.trace.writes };

    ghost invariant = { λ s. AreCounted O.is_owned s.trace.writes s.book.total };
}

impl<E, J: TraceName + Ledger, O: Ownership<E>> SharedTrace<E, J, O> {
    /// An empty trace, and the party with all parts.
    /// ```
    /// let names = UnopenedTrace::new();
    /// let parts = ledger::Blank::new(3);
    /// let (trace, party): (SharedTrace<u64, Brand>, Party<u64, Brand>) =
    ///     SharedTrace::open(names, parts);
    /// ```
    pub fn open(
        trace: UnopenedTrace,
        parts: ledger::Blank,
    ) -> (SharedTrace<E, J, O>, Party<E, J, O>)
        requires trace { (trace.trace_name ≡ J.trace_name)
            × (trace.positions_name ≡ J.positions_name) }
        requires parts { (parts.name ≡ J.name) × (parts.parts ≡ J.parts) }
        requires some { 0 < parts.parts }
        ensures empty { result.0 ≡ [] }
        ensures whole { result.1 ≡ party_of J.parts [] }
    {
        let (trace, mut claim) = trace.open::<E, J>();
        let nobody = claim.split_off();
        let (book, share) = parts.open::<J>();
        let shared = SharedTrace {
            trace,
            book,
            nobody,
            ownership: PhantomData,
        };
        (shared, Party::new(claim, share))
    }

    /// Records actions that have no owner, at least one: no party can say them its own.
    /// ```
    /// trace.record_unowned::<(), Query>(&());
    /// ```
    pub fn record_unowned<V, M: Records<V, E>>(&mut self, evidence: &V)
        requires some { (actions : List E)
            × M.may evidence.now self.old actions × AreUnowned O.is_owned actions }
        ensures recorded { (actions : List E)
            × M.may evidence.now self.old actions × AreUnowned O.is_owned actions
            × (self.new ≡ self.old ++ actions) }
    {
        self.trace
            .append::<V, UnownedWrite<M, O>>(&mut self.nobody, evidence);
    }
}
