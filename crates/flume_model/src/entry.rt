//! A parked receiver, as a channel knows it.

use crate::step::Kind;

/// The state of a parked receiver.
#[derive(Drop)]
pub enum Mark<T> {
    Waiting,
    /// It was woken, and hasn't asked since.
    Woken,
    /// It was handed this message, and hasn't collected it.
    Filled(T),
}

/// A parked receiver. `notice` is nothing in a log, and the receiver's signal in a state.
#[derive(Drop)]
pub struct Entry<T, N> {
    pub ticket: u64,
    pub kind: Kind,
    pub mark: Mark<T>,
    pub notice: N,
}
