//! The state of a channel, and the steps that change it.
ghost use Rattle.std.specs.Prelude.{◌≡◌, ◌≤◌, [], length, IsTrue, ◌↔◌, Option};
ghost use Rattle.flume_model.specs.Log.{opens};
ghost use Rattle.flume_model.specs.Limits.{IsOpen, HasRoom};
ghost use Rattle.flume_state.specs.State.{State, new_state};
ghost use Rattle.flume_core.specs.Represents.{Represents, Extends, ChangesNothing, IsReachable};
ghost use Rattle.flume_state.specs.Due.{BecomesDue};
ghost use Rattle.flume_core.specs.PossibleReply.{PossibleReply};
ghost use Rattle.flume_core.specs.NoMemoryRule.{ChanMayAllocate};

mod capacity;
mod ends;
mod no_memory;
mod parked;
mod queries;
mod receive;
mod send;
mod waiting;

pub use flume_model::step::{Kind, Reply, Step};
use flume_state::entries::Entries;
use flume_state::line::Line;
use std::alloc::{Allocator, Global};
use std::marker::Model;

/// A channel without its lock. `S` is the signal that a blocked send or a parked receiver leaves.
/// `Reply` says what each reply means. A refusal (`IsRefusal`) changes nothing, except that a poll
/// that answers `Ended` spends its ticket. `NoMemory` also comes if a `flume_chain::chain::Chain`
/// of messages, live sends or parked receivers is full.
#[derive(Drop)]
pub struct Chan<T, S, A: Allocator = Global> {
    capacity: Option<usize>,
    // The greatest capacity so far: the capacity may have been lowered under the queue.
    greatest: Option<usize>,
    line: Line<T, S, A>,
    entries: Entries<T, S, A>,
    next_ticket: u64,
    peak: usize,
    senders: usize,
    receivers: usize,
}

impl<T, S, A: Allocator> Model for Chan<T, S, A> {
    ghost use Rattle.std.specs.Coded.{codes};
    ghost use Rattle.flume_state.specs.Sends.{send_map_code};
    ghost use Rattle.flume_state.specs.State.{State};

    ghost Value = { State T S };

    ghost view = { λ chan. record {
      capacity = chan.capacity;
      greatest = chan.greatest;
      queue = chan.line.queued;
      blocked = chan.line.blocked;
      space = chan.line.space;
      sends = chan.line.sends;
      entries = chan.entries;
      next_ticket = chan.next_ticket;
      peak = chan.peak;
      senders = chan.senders;
      receivers = chan.receivers;
    } };

    ghost coded = { Prim.hlevel (codes, send_map_code S.code) };
}

impl<T: Drop, S: Drop, A: Allocator + Copy> Chan<T, S, A> {
    /// A channel with one sender and one receiver; unbounded if `None`. Doesn't allocate.
    /// ```
    /// let mut chan: Chan<u64, ()> = Chan::new(alloc, Some(1));
    /// chan.try_send(1);                  // Sent { filled: None }
    /// chan.try_send(2);                  // Full(2)
    /// ```
    #[inline(always)]
    pub fn new(alloc: A, capacity: Option<usize>) -> Self
        ensures state { result ≡ new_state (opens capacity 1) }
        ensures represents { Represents {A = A} (opens capacity 1) [] result }
    {
        Chan::starting_at(alloc, capacity, 1)
    }

    /// As `new`, with `ticket` as the first ticket in place of 1.
    /// ```
    /// let mut chan: Chan<u64, ()> = Chan::starting_at(alloc, Some(0), 5);
    /// chan.send(7, ());                  // Pending(5)
    /// ```
    #[inline(always)]
    pub fn starting_at(alloc: A, capacity: Option<usize>, ticket: u64) -> Self
        ensures state { result ≡ new_state (opens capacity ticket) }
        ensures represents { Represents {A = A} (opens capacity ticket) [] result }
    {
        Chan {
            capacity,
            greatest: capacity,
            line: Line::new(alloc),
            entries: Entries::new(alloc),
            next_ticket: ticket,
            peak: 0,
            senders: 1,
            receivers: 1,
        }
    }

    #[inline(always)]
    pub(super) fn is_open(&self) -> bool
        ensures open { IsTrue result ↔ IsOpen self.now.senders self.now.receivers }
    {
        self.senders > 0 && self.receivers > 0
    }

    #[inline(always)]
    pub(super) fn has_room(&self) -> bool
        ensures room { IsTrue result ↔ HasRoom self.now.capacity (length self.now.queue) }
    {
        match self.capacity {
            None => true,
            Some(capacity) => self.line.queued_len() < capacity,
        }
    }
}

impl<T: Drop, A: Allocator + Copy> Chan<T, (), A> {
    /// Does one step: the call of the same name, with its reply.
    /// ```
    /// let mut chan: Chan<u64, ()> = Chan::new(alloc, None);
    /// chan.step(Step::TrySend(42));      // Sent { filled: None }, as of chan.try_send(42)
    /// ```
    pub fn step(&mut self, step: Step<T>) -> Reply<T, A>
        ensures step { Extends self.old step result self.new }
        ensures becomes_due { IsReachable A self.old → BecomesDue self.old step result self.new }
        ensures possible_reply { PossibleReply step result }
        ensures space { self.old.space ≤ self.new.space }
        ensures refused { (back : Option T) → result ≡ Reply.NoMemory back
            → ChanMayAllocate self.old step }
        ensures unchanged { ChangesNothing step result → self.new ≡ self.old }
    {
        match step {
            Step::TrySend(message) => self.try_send(message),
            Step::Send(message) => self.send(message, ()),
            Step::PollSend(ticket) => self.poll_send(ticket, None),
            Step::WithdrawSend(ticket) => self.withdraw_send(ticket),
            Step::TryRecv => self.try_recv(),
            Step::Recv(kind) => self.recv(kind, ()),
            Step::Poll(ticket) => self.poll(ticket, None),
            Step::Withdraw(ticket) => self.withdraw(ticket),
            Step::Drain => self.drain(),
            Step::CloneSender => self.clone_sender(),
            Step::CloneReceiver => self.clone_receiver(),
            Step::DropSender => self.drop_sender(),
            Step::DropReceiver => self.drop_receiver(),
            Step::SetCapacity(capacity) => self.set_capacity(capacity),
            Step::Len => self.len(),
            Step::IsEmpty => self.is_empty(),
            Step::IsFull => self.is_full(),
            Step::Capacity => self.capacity(),
            Step::SenderCount => self.sender_count(),
            Step::ReceiverCount => self.receiver_count(),
            Step::IsDisconnected => self.is_disconnected(),
        }
    }
}
