//! Callers of `flume_party`: two threads make an action each on what a lock protects, and it is
//! proved that nobody else made one. So a party goes to another thread and comes back. And
//! near-misses of the laws of parties.
#![tactic(auto)]

mod near_misses;
mod shared;
#[cfg(test)]
mod threads;

pub use near_misses::{
    a_party_got_what_another_sent, near_misses_are_not_exchanged, near_misses_are_not_routed,
    near_misses_were_not_offered, the_bound_needs_the_number_of_parties,
    the_law_needs_an_empty_channel, what_is_left_is_not_in_front,
};
pub use shared::{two_add, two_add_named};
