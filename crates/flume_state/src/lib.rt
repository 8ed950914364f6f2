//! The state of a channel, for `flume_core` alone, with which it may change. In `specs/`,
//! `State.antt` is what a contract sees of it, `Effects.antt` what some steps leave of it.
#![tactic(auto)]

pub mod entries;
pub mod line;
pub mod messages;
pub mod notice;
pub mod optional_place;
pub mod places;
pub mod sends;
pub mod ticket_chain;
