//! The answer of `close`.

/// What closing an audit answers.
#[derive(Clone, Copy, Debug, PartialEq, Eq, Drop)]
pub enum Closed {
    MissingSeat,
    /// The least number at which the history and the receipts disagree.
    Differs(usize),
    Settled,
}
