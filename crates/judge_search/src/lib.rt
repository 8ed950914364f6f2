//! Looks for an explanation of what threads recorded of their calls on a channel.
#![tactic(auto)]

pub mod answers;
mod call_records;
mod choice;
mod configuration;
mod ends;
pub mod explain;
mod frame;
mod guess;
mod happens;
mod levels;
mod line;
mod moves;
mod order;
mod outcome;
mod overtaking;
mod paths;
mod patterns;
mod place_reply;
mod places;
mod progress;
mod receives;
mod refused;
mod refuted;
mod replay;
mod replies;
mod sends;
mod step_of;
mod table;
mod trails;
mod tries;
mod wakes;
