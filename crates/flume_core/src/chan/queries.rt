//! The queries, each a step that changes nothing, and what is due. None allocates.
ghost use Rattle.std.specs.Prelude.{◌≡◌, ◌==◌, ◌+◌, min, length, IfNone, IfSome, false};
ghost use Rattle.std.specs.Option.{option_copied};
ghost use Rattle.flume_model.specs.Limits.{is_closed, is_full};
ghost use Rattle.flume_model.specs.Entries.{waiting_count};
ghost use Rattle.flume_state.specs.Sends.{NoDueSend};
ghost use Rattle.flume_state.specs.Receivers.{NoDueReceiver};
ghost use Rattle.flume_state.specs.Signals.{NamesDueTicket, signal_of};
ghost use Rattle.flume_state.specs.State.{State, message_count};
ghost use Rattle.flume_core.specs.Represents.{Extends, SameLogs};
ghost use Rattle.flume_state.specs.Due.{BecomesDue};
ghost use Rattle.flume_core.specs.PossibleReply.{PossibleReply};

use super::Chan;
use flume_model::step::{Reply, Step};
use std::alloc::Allocator;

impl<T: Drop, S: Drop, A: Allocator + Copy> Chan<T, S, A> {
    /// How many messages are queued, as a `Number`.
    pub fn len(&self) -> Reply<T, A>
        ensures step { Extends self.now Step.Len result self.now }
        ensures becomes_due { BecomesDue self.now Step.Len result self.now }
        ensures possible_reply { PossibleReply Step.Len result }
        ensures number { result ≡ Reply.Number (length self.now.queue) }
    {
        Reply::Number(self.line.queued_len())
    }

    /// Whether no message is queued, as a `Flag`.
    pub fn is_empty(&self) -> Reply<T, A>
        ensures step { Extends self.now Step.IsEmpty result self.now }
        ensures becomes_due { BecomesDue self.now Step.IsEmpty result self.now }
        ensures possible_reply { PossibleReply Step.IsEmpty result }
        ensures flag { result ≡ Reply.Flag (length self.now.queue == 0) }
    {
        Reply::Flag(self.line.queued_len() == 0)
    }

    /// Whether the channel is bounded and its queue at or past its capacity, as a `Flag`.
    pub fn is_full(&self) -> Reply<T, A>
        ensures step { Extends self.now Step.IsFull result self.now }
        ensures becomes_due { BecomesDue self.now Step.IsFull result self.now }
        ensures possible_reply { PossibleReply Step.IsFull result }
        ensures flag { result ≡ Reply.Flag (is_full self.now.capacity (length self.now.queue)) }
    {
        Reply::Flag(!self.has_room())
    }

    /// The capacity, or `None` if unbounded.
    pub fn capacity(&self) -> Reply<T, A>
        ensures step { Extends self.now Step.Capacity result self.now }
        ensures becomes_due { BecomesDue self.now Step.Capacity result self.now }
        ensures possible_reply { PossibleReply Step.Capacity result }
        ensures capacity { result ≡ Reply.Capacity self.now.capacity }
    {
        Reply::Capacity(self.capacity)
    }

    /// How many senders live, as a `Number`.
    pub fn sender_count(&self) -> Reply<T, A>
        ensures step { Extends self.now Step.SenderCount result self.now }
        ensures becomes_due { BecomesDue self.now Step.SenderCount result self.now }
        ensures possible_reply { PossibleReply Step.SenderCount result }
        ensures number { result ≡ Reply.Number self.now.senders }
    {
        Reply::Number(self.senders)
    }

    /// How many receivers live, as a `Number`.
    pub fn receiver_count(&self) -> Reply<T, A>
        ensures step { Extends self.now Step.ReceiverCount result self.now }
        ensures becomes_due { BecomesDue self.now Step.ReceiverCount result self.now }
        ensures possible_reply { PossibleReply Step.ReceiverCount result }
        ensures number { result ≡ Reply.Number self.now.receivers }
    {
        Reply::Number(self.receivers)
    }

    /// Whether all senders or all receivers have been dropped, as a `Flag`.
    pub fn is_disconnected(&self) -> Reply<T, A>
        ensures step { Extends self.now Step.IsDisconnected result self.now }
        ensures becomes_due { BecomesDue self.now Step.IsDisconnected result self.now }
        ensures possible_reply { PossibleReply Step.IsDisconnected result }
        ensures flag { result ≡ Reply.Flag (is_closed self.now.senders self.now.receivers) }
    {
        Reply::Flag(!self.is_open())
    }

    /// How many more messages can be stored before a send allocates; 0 at first. No step.
    /// ```
    /// let mut chan: Chan<u64, ()> = Chan::new(alloc, None);
    /// chan.room();                       // 0
    /// chan.try_send(1);
    /// chan.try_recv();
    /// chan.room() >= 1;                  // true
    /// ```
    pub fn room(&self) -> usize
        ensures room { result + message_count self.now ≡ self.now.space }
    {
        self.line.room()
    }

    /// How many sends are blocked, in a closed channel too. No step.
    /// ```
    /// let mut chan: Chan<u64, ()> = Chan::new(alloc, Some(0));
    /// chan.send(7, ());                  // Pending(1)
    /// chan.blocked_len();                // 1
    /// chan.try_recv();                   // Got(7)
    /// chan.blocked_len();                // 0
    /// ```
    pub fn blocked_len(&self) -> usize
        ensures blocked { result ≡ length self.now.blocked }
    {
        self.line.blocked_len()
    }

    /// How many parked receivers wait. One that was woken or filled isn't counted. No step.
    /// ```
    /// let mut chan: Chan<u64, ()> = Chan::new(alloc, None);
    /// chan.recv(Kind::Block, ());        // Parked(1)
    /// chan.waiting_len();                // 1
    /// chan.try_send(7);                  // Sent { filled: Some(1) }
    /// chan.waiting_len();                // 0
    /// ```
    pub fn waiting_len(&self) -> usize
        ensures waiting { result ≡ waiting_count self.now.entries }
    {
        self.entries.waiting()
    }

    /// How many messages, queued or blocked, could be received now, and at most `most`. No step.
    /// ```
    /// let mut chan: Chan<u64, u32> = Chan::new(alloc, Some(1));
    /// chan.try_send(1);
    /// chan.send(2, 10);                  // Pending(1)
    /// chan.available(64);                // 2
    /// chan.available(1);                 // 1
    /// ```
    #[inline(always)]
    pub fn available(&self, most: usize) -> usize
        ensures number { result ≡ min most (message_count self.now) }
    {
        let queued = self.line.queued_len().min(most);
        queued + self.line.blocked_len().min(most - queued)
    }

    /// A ticket that is due, and isn't afterwards: its send was accepted, or is blocked in a closed
    /// channel, or its receiver was woken or filled. Searches nothing. No step.
    #[inline(always)]
    pub fn next_due(&mut self) -> Option<u64>
        ensures named { IfSome result (λ ticket. NamesDueTicket self.old self.new ticket) }
        ensures none { IfNone result (NoDueSend self.old.sends × NoDueReceiver self.old.entries) }
        ensures unchanged { IfNone result (self.new ≡ self.old) }
        ensures represents { SameLogs A self.old self.new }
    {
        if let Some(ticket) = self.line.next_due() {
            return Some(ticket);
        }
        self.entries.next_due()
    }

    /// The signal that the live ticket left last, or `None` if the ticket isn't live. No step.
    #[inline(never)]
    pub fn signal(&self, ticket: u64) -> Option<&S>
        ensures signal { option_copied result ≡ signal_of self.now ticket }
    {
        if let Some(signal) = self.line.signal(ticket) {
            return Some(signal);
        }
        self.entries.signal(ticket)
    }
}
