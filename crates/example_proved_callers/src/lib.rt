//! Callers of the library that conclude something from its contracts: examples for your own proofs.
//! `docs/PROVING.md` explains each.
#![tactic(auto)]

pub mod audits;
pub mod gates;
#[cfg(test)]
mod gates_tests;
pub mod loops;
pub mod polls;
pub mod refusals;
pub mod share;
pub mod streams;
