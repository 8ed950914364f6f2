//! What the clauses of flume's calls exclude. Each function is a small caller of an end, an
//! iterator, a future, a sink, a stream, a selector or a party. It has the clauses of its call that
//! a user builds on. `must-fail/` has wrong bodies of these functions. The prover refuses each, so
//! the clauses exclude that fault.
#![tactic(auto)]

pub mod openings;
pub mod polls;
pub mod receives;
pub mod selections;
pub mod sends;
