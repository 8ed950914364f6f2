//! Checks whether a correct channel could have produced a recorded history. After each run a step
//! has at most one lawful reply other than `NoMemory` (`laws`), so this can be decided.
//! ```
//! let history = [
//!     (Step::TrySend(5), Reply::Sent { filled: None }),
//!     (Step::TryRecv, Reply::Got(6)),
//! ];
//! check_history(alloc, None, &history);      // Breaks(1): a correct channel gives 5
//! ```
#![tactic(auto)]

pub mod check;
pub mod follow;
pub mod laws;
pub mod script;
