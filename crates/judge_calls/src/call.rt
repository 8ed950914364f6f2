//! A call on a channel, and what it returns.
ghost use Rattle.std.specs.Prelude.{◌≡◌};
ghost use Rattle.std.specs.Cmp.Lexicographic.{pointwise, lists_per};
ghost use Rattle.std.proofs.lemmas.Cmp.{lists_equiv};

use std::alloc::{Allocator, Global};
use std::marker::Model;

/// A call, named as its method. `SendAsync` and `RecvAsync` are futures.
#[derive(Clone, Copy, Debug, Drop)]
pub enum Call<T> {
    Send(T),
    SendTimeout(T),
    SendAsync(T),
    TrySend(T),
    Recv,
    RecvTimeout,
    RecvAsync,
    TryRecv,
    Drain,
    CloneSender,
    CloneReceiver,
    DropSender,
    DropReceiver,
    SetCapacity(usize),
    Len,
    IsEmpty,
    IsFull,
    Capacity,
    SenderCount,
    ReceiverCount,
    IsDisconnected,
}

/// What a call returns, but for a message that it hands back, which is its own. `Dropped`: it is a
/// future dropped before it was read; a receive that has a message isn't. `NoEnd`: no such end is
/// left. `Capacity(None)`: unbounded.
#[derive(Drop)]
#[derive_where(PartialEq, Eq; T)]
pub enum Answer<T, A: Allocator = Global> {
    Sent,
    Full,
    Got(T),
    Empty,
    Disconnected,
    Timeout,
    NoMemory,
    Dropped,
    Drained(Messages<T, A>),
    Done,
    NoEnd,
    CountFull,
    Number(usize),
    Flag(bool),
    Capacity(Option<usize>),
    Unbounded,
}

/// A list of messages. A contract sees the messages, not the memory that they are in.
#[derive(Drop)]
pub struct Messages<T, A: Allocator = Global> {
    list: Vec<T, A>,
}

impl<T, A: Allocator> Model for Messages<T, A> {
    ghost use Rattle.std.specs.Prelude.{List};

    ghost Value = { List T };

    ghost view = { λ messages. messages.list.items };
}

impl<T, A: Allocator> Messages<T, A> {
    /// The messages of this list.
    pub fn new(list: Vec<T, A>) -> Self
        ensures messages { result ≡ list.items }
    {
        Messages { list }
    }

    /// The messages, in order.
    pub fn as_slice(&self) -> &[T]
        ensures messages { result.now ≡ self.now }
    {
        self.list.as_slice()
    }
}

impl<T: PartialEq, A: Allocator> PartialEq for Messages<T, A> {
    ghost eq = { λ x y. pointwise T.eq x y };

    ghost laws = { lists_per T.laws };

    fn eq(&self, other: &Self) -> bool {
        self.list == other.list
    }
}

impl<T: Eq, A: Allocator> Eq for Messages<T, A> {
    ghost laws = { lists_equiv T.Eq.laws };
}
