//! What a party may ask of a channel, and what it may be answered.

use std::alloc::{Allocator, Global};

/// How a parked receiver receives. A wake round fills one that sleeps (`Block`) with the queue's
/// front, and wakes a future, a stream or a selector's arm; it goes on only after a stream.
#[derive(Clone, Copy, Debug, PartialEq, Eq, Drop)]
pub enum Kind {
    Block,
    Plain,
    Stream,
    Arm,
}

/// One step of one party. `Send` may block and `Recv` may park; `TrySend` and `TryRecv` never wait.
#[derive(Clone, Copy, Debug, PartialEq, Eq, Drop)]
pub enum Step<T> {
    TrySend(T),
    Send(T),
    /// Ask for the state of the blocked send with this ticket.
    PollSend(u64),
    /// Take back the message of the blocked send with this ticket.
    WithdrawSend(u64),
    TryRecv,
    Recv(Kind),
    /// Ask again, as the receiver parked under this ticket.
    Poll(u64),
    /// Leave, as the receiver parked under this ticket.
    Withdraw(u64),
    Drain,
    CloneSender,
    CloneReceiver,
    DropSender,
    DropReceiver,
    SetCapacity(usize),
    Len,
    IsEmpty,
    /// Ask whether the queue is at or past its capacity.
    IsFull,
    Capacity,
    SenderCount,
    ReceiverCount,
    IsDisconnected,
}

/// What the channel answers to a step. `A` is the allocator of a drained list.
#[derive(Clone, Drop)]
#[derive_where(Debug, PartialEq, Eq; T)]
pub enum Reply<T, A: Allocator = Global> {
    /// The message was taken into the queue. The receiver `filled`, if any, was handed its front.
    Sent { filled: Option<u64> },
    /// The queue has reached the capacity, and no receiver waits: the message comes back.
    Full(T),
    /// All senders or all receivers were dropped: the message comes back.
    Closed(T),
    /// Out of memory: nothing was done, and the message of a send comes back.
    NoMemory(Option<T>),
    /// Every ticket was issued: nothing was done, and the message of a send comes back.
    Spent(Option<T>),
    /// The message is blocked under this ticket.
    Pending(u64),
    /// The message of the blocked send was taken into the queue. Its ticket is no longer live.
    Accepted,
    /// The message of the blocked send is still blocked, or the parked receiver waits on.
    Waiting,
    /// The message of the blocked send comes back. Its ticket is no longer live.
    Returned { message: T, closed: bool },
    /// No live ticket of this kind has this number.
    NoTicket,
    Got(T),
    /// The channel is open and has no message.
    Empty,
    /// The channel is closed and has no message.
    Ended,
    Parked(u64),
    /// The parked receiver left with no message; its wake filled the receiver `filled`, if any.
    Gone { closed: bool, filled: Option<u64> },
    /// All messages that were queued, in order.
    Drained(Vec<T, A>),
    Done,
    /// There is no such end left.
    NoEnd,
    /// There are as many such ends as can be counted.
    CountFull,
    Number(usize),
    Flag(bool),
    Capacity(Option<usize>),
    /// The channel has no capacity to set.
    Unbounded,
}
