//! What a channel holds and who uses it, at one moment.

/// What a channel holds and who uses it, at one moment. Each field is what the query of its name
/// answers then.
#[derive(Clone, Copy, Debug, PartialEq, Eq, Drop)]
pub struct Description {
    /// How many messages are queued.
    pub len: usize,
    /// The capacity, or `None` if unbounded.
    pub capacity: Option<usize>,
    /// How many sends are blocked.
    pub blocked_senders: usize,
    /// How many receives wait, and weren't woken or handed a message.
    pub waiting_receivers: usize,
    /// How many senders live.
    pub sender_count: usize,
    /// How many receivers live.
    pub receiver_count: usize,
}
