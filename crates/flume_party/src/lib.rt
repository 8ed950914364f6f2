//! *Parties*: several who act on one thing behind a lock, and a proof of which actions are whose.
//! It exists in proofs only: no type here has bytes, and no function does anything.
//!
//! Beside the thing, the lock protects a `SharedTrace`: the list of all actions on it, the oldest
//! first. Each thread has a `Party`, and records what it does. A party knows its own actions, and
//! has some *parts* of the right to act, of which there is a fixed number.
//! ```
//! let names = UnopenedTrace::new();
//! let parts = ledger::Blank::new(2);
//! let (mut trace, mut first): (SharedTrace<u64, Brand>, Party<u64, Brand>) =
//!     SharedTrace::open(names, parts);
//! let mut second = first.split_off(1);
//! first.record::<u64, Once>(&mut trace, &7);     // in one thread, under the lock
//! second.record::<u64, Once>(&mut trace, &8);    // in another thread, under the lock
//! first.merge(second);
//! first.audit(&mut trace);
//! ```
//! The party that has all parts made all actions that have an owner (`all` of `Party::audit`). So
//! what its threads did together is the whole trace, but for actions of nobody, such as a query.
#![tactic(auto)]

mod party;
mod records;
mod shared_trace;

pub use party::Party;
pub use records::{AllOwned, Ownership, Records};
pub use shared_trace::SharedTrace;
