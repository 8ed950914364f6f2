//! What a channel is: which reply to a step is lawful, and what holds of each *run*, a list of
//! steps with lawful replies. The repository's docs/MODEL.md says all of it in words.
#![tactic(auto)]

pub mod entry;
pub mod laws;
pub mod step;
