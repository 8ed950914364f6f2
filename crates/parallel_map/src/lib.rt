//! Jobs for many threads, whose result is proved. `parallel_map` gives the jobs of a list to
//! threads through one channel, and gets their answers back through another, in any order. `Ok` is
//! what a loop in one thread would give. `position_any` searches a list in the same way.
//! ```
//! let squares = parallel_map(rt, &Square, &[1, 2, 3], 2)?;
//! assert_eq!(rt; squares.as_slice(), [1, 4, 9].as_slice());
//! ```
//! No contract says which message a receive gives, since other threads decide that. So the type of
//! an answer says that its value is the work of its job, and the receiver compares its job with the
//! list. A channel that lost, doubled or mixed up messages could bring an error, and never a wrong
//! `Ok`. What isn't proved: that the call ends, and that it answers `Ok`, unless the list is empty.
//!
//! If your threads talk in another way, send an `Answer`, or a type like it: a struct with the
//! question and the result, and a ghost field that ties them together. `answers::collect` and
//! `answers::position` take any iterator over answers.
#![tactic(auto)]

pub mod answer;
pub mod answers;
pub mod error;
mod gather;
mod map;
mod slots;
mod threads;
pub mod work;

pub use answer::Answer;
pub use error::WorkError;
pub use map::{parallel_map, position_any};
pub use work::Work;
