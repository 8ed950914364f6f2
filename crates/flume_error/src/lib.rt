//! The errors of a channel, a type for each kind of call. Each becomes an `io::Error` by `?`.
//! ```
//! TrySendError::Full(7).into_inner(); // 7
//! ```
#![tactic(auto)]

pub mod error;
pub mod laws;
