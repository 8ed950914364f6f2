//! Worked examples for the definitions of `flume_model`: logs that are runs, and near-misses, which
//! differ from a run in one place. No proof depends on them. The functions do nothing.
#![tactic(auto)]

pub mod blocked;
pub mod capacity;
pub mod fills;
pub mod parked;
pub mod plain;
