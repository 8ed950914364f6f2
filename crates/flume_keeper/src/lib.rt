//! Who keeps what is done to a channel. Under the lock, beside the channel, lies a keeper:
//! `NoTrace` keeps nothing, and a `Traced` all that was done to this very channel, and by which
//! party. What is kept exists in proofs only: neither has bytes.
#![tactic(auto)]

mod keeper;
mod kept;
mod no_trace;
mod settle;
mod traced;
mod turns;
mod unopened;

pub use keeper::{Keeper, Made, Maker};
pub use kept::Kept;
pub use no_trace::{NoParty, NoTrace};
pub use traced::{ChannelName, ChannelParty, MessageMoves, NamesOf, Traced};
pub use turns::{EndTurn, MessagePoll, MessageTurn};
pub use unopened::UnopenedChannel;
