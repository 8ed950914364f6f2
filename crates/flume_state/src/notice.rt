//! The signal of a live ticket.

/// The signal that a blocked send or a parked receiver left, and whether its ticket is due.
#[derive(Drop)]
pub struct Notice<S> {
    /// The signal.
    pub signal: S,
    /// Whether its ticket is due: `next_due` is to name it.
    pub due: bool,
}
