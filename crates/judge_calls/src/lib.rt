//! Whether a correct channel could have produced what threads recorded of their calls; and these
//! recordings as text: `unbounded` or `bounded N`, then a line for each event in order,
//! `THREAD: CALL` as a call begins, `THREAD -> ANSWER` as it returns. A name has no space or colon.
#![tactic(auto)]

pub mod answer_texts;
pub mod call;
pub mod call_texts;
pub mod event;
pub mod explanation;
pub mod fault;
pub mod laws;
mod numbers;
mod open;
mod parts;
pub mod recording;
pub mod stage;
mod threads;
pub mod writing;
