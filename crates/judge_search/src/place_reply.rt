//! Replies by places of calls.

/// A reply without tickets, with the place of a send for its message.
#[derive(Clone, Copy, Debug, PartialEq, Eq, Drop)]
pub enum PlaceReply {
    Sent,
    Full,
    Closed,
    Pending,
    /// The blocked message was accepted, or both sides are disconnected.
    Accepted,
    Waiting,
    /// Whether the channel is closed.
    Returned(bool),
    /// Both sides are disconnected: the receive isn't parked any more.
    NoTicket,
    Got(usize),
    Empty,
    Ended,
    Parked,
    /// Whether the channel is closed.
    Gone(bool),
    Drained,
    Done,
    NoEnd,
    CountFull,
    Number(usize),
    Flag(bool),
    Capacity(Option<usize>),
    Unbounded,
}
