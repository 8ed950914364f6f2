//! The steps of senders: offers, and what becomes of those that blocked.
ghost use Rattle.std.specs.Prelude.{◌≡◌, ◌≢◌, ℕ, ◌+◌, ◌<◌, ◌≤◌, ◌↔◌, ◌⊎◌, Bool, ◌∷◌, ◌++◌, []};
ghost use Rattle.std.specs.Prelude.{length, Option, Some, None, true, false};
ghost use Rattle.std.specs.FinMap.{get, insert, remove};
ghost use Rattle.flume_model.specs.Limits.{IsOpen, IsClosed, IsAtCapacity, most};
ghost use Rattle.flume_state.specs.Notices.{with_signal};
ghost use Rattle.flume_state.specs.Sends.{newly_blocked, with_send_notice};
ghost use Rattle.flume_model.specs.Entries.{some_wait};
ghost use Rattle.flume_state.specs.Effects.{Joins, Returns};
ghost use Rattle.std.specs.List.{All};
ghost use Rattle.flume_state.specs.State.{State, accepted_at, message_count};
ghost use Rattle.flume_core.specs.Represents.{Extends, IsReachable, IsRefusal};
ghost use Rattle.flume_state.specs.Due.{BecomesDue};
ghost use Rattle.flume_core.specs.PossibleReply.{PossibleReply};
ghost use Rattle.flume_core.specs.Waiting.{FindsNoRoom};

use super::Chan;
use flume_model::step::{Reply, Step};
use std::alloc::Allocator;

impl<T: Drop, S: Drop, A: Allocator + Copy> Chan<T, S, A> {
    /// Offers a message. `Sent`: it is at the queue's end, at any capacity if a receiver waits, and
    /// a wake round follows. `Full`: no receiver waits, and the queue is at its capacity. `Closed`:
    /// all senders or all receivers have been dropped. `NoMemory`: no room could be had for it.
    /// ```
    /// let mut chan: Chan<u64, ()> = Chan::new(alloc, None);
    /// chan.try_send(7);                  // Sent { filled: None }
    /// chan.drop_receiver();              // Done
    /// chan.try_send(8);                  // Closed(8)
    /// ```
    #[inline(always)]
    pub fn try_send(&mut self, message: T) -> Reply<T, A>
        ensures step { Extends self.old (Step.TrySend message) result self.new }
        ensures becomes_due { IsReachable A self.old
            → BecomesDue self.old (Step.TrySend message) result self.new }
        ensures possible_reply { PossibleReply (Step.TrySend message) result }
        ensures space { self.old.space ≤ self.new.space }
        ensures closed { (result ≡ Reply.Closed message)
            ↔ IsClosed self.old.senders self.old.receivers }
        ensures full { (result ≡ Reply.Full message)
            ↔ IsOpen self.old.senders self.old.receivers × (some_wait self.old.entries ≡ false)
            × IsAtCapacity self.old.capacity (length self.old.queue) }
        ensures sent { (filled : Option ℕ) → result ≡ Reply.Sent filled
            → Joins self.old self.new message filled }
        ensures succeeds { message_count self.old < self.old.space
            → result ≢ Reply.NoMemory (Some message) }
        ensures unchanged { IsRefusal result → self.new ≡ self.old }
    {
        if !self.is_open() {
            return Reply::Closed(message);
        }
        if !self.entries.some_wait() && !self.has_room() {
            return Reply::Full(message);
        }
        if let Err(back) = self.line.push_queued(message) {
            return Reply::NoMemory(Some(back));
        }
        let filled = self.wake();
        Reply::Sent { filled }
    }

    /// As `try_send`, never `Full`: it blocks behind the queue, or answers `NoMemory` or `Spent`.
    /// ```
    /// let mut chan: Chan<u64, u32> = Chan::new(alloc, Some(0));
    /// chan.send(7, 10);                  // Pending(1), with the signal 10
    /// chan.try_recv();                   // Got(7)
    /// chan.poll_send(1, None);           // Accepted
    /// ```
    pub fn send(&mut self, message: T, signal: S) -> Reply<T, A>
        ensures step { Extends self.old (Step.Send message) result self.new }
        ensures becomes_due { IsReachable A self.old
            → BecomesDue self.old (Step.Send message) result self.new }
        ensures possible_reply { PossibleReply (Step.Send message) result }
        ensures space { self.old.space ≤ self.new.space }
        ensures closed { (result ≡ Reply.Closed message)
            ↔ IsClosed self.old.senders self.old.receivers }
        ensures spent { (result ≡ Reply.Spent (Some message))
            ↔ IsOpen self.old.senders self.old.receivers × (some_wait self.old.entries ≡ false)
            × IsAtCapacity self.old.capacity (length self.old.queue)
            × (most ≤ self.old.next_ticket) }
        ensures sent { (filled : Option ℕ) → result ≡ Reply.Sent filled
            → Joins self.old self.new message filled }
        ensures waits { (ticket : ℕ) → result ≡ Reply.Pending ticket → FindsNoRoom self.old }
        ensures refused { result ≡ Reply.NoMemory (Some message)
            → message_count self.old < self.old.space → FindsNoRoom self.old }
        ensures pending { result ≡ Reply.Pending self.old.next_ticket → self.new ≡ record self.old {
          blocked = self.old.blocked
              ++ record { ticket = self.old.next_ticket; message = message } ∷ [];
          space = self.new.space;
          sends = insert self.old.sends self.old.next_ticket (newly_blocked signal);
          next_ticket = self.old.next_ticket + 1;
        } }
        ensures unchanged { IsRefusal result → self.new ≡ self.old }
    {
        let message = match self.try_send(message) {
            Reply::Full(message) => message,
            reply => return reply,
        };
        let ticket = self.next_ticket;
        if ticket == u64::MAX {
            return Reply::Spent(Some(message));
        }
        if let Err(back) = self.line.block(ticket, message, signal) {
            return Reply::NoMemory(Some(back));
        }
        self.next_ticket = ticket + 1;
        Reply::Pending(ticket)
    }
}

impl<T: Drop, S: Drop, A: Allocator + Copy> Chan<T, S, A> {
    /// Asks for the state of the blocked send with this ticket. `Returned`: the channel is closed.
    /// `Waiting`: `signal` replaces the one that the send left. Doesn't allocate.
    pub fn poll_send(&mut self, ticket: u64, signal: Option<S>) -> Reply<T, A>
        ensures step { Extends self.old (Step.PollSend ticket) result self.new }
        ensures becomes_due { IsReachable A self.old
            → BecomesDue self.old (Step.PollSend ticket) result self.new }
        ensures possible_reply { PossibleReply (Step.PollSend ticket) result }
        ensures space { self.old.space ≤ self.new.space }
        ensures no_ticket { get self.old.sends ticket ≡ None → result ≡ Reply.NoTicket }
        ensures accepted { (result ≡ Reply.Accepted)
            ↔ (accepted_at self.old ticket ≡ Some true) }
        ensures removed { result ≡ Reply.Accepted
            → self.new ≡ record self.old { sends = remove self.old.sends ticket } }
        ensures returned { (message : T) (closed : Bool) → result ≡ Reply.Returned message closed
            → Returns self.old self.new ticket message closed }
        ensures waiting { (result ≡ Reply.Waiting)
            ↔ (accepted_at self.old ticket ≡ Some false)
            × IsOpen self.old.senders self.old.receivers }
        ensures replaced { result ≡ Reply.Waiting → self.new ≡ record self.old {
          sends = with_send_notice (with_signal signal) ticket self.old.sends;
        } }
        ensures unchanged { IsRefusal result → self.new ≡ self.old }
    {
        match self.line.accepted(ticket) {
            None => Reply::NoTicket,
            Some(true) => self.answer_accepted(ticket),
            Some(false) if !self.is_open() => self.take_back(ticket),
            Some(false) => {
                self.replace_signal(ticket, signal);
                Reply::Waiting
            }
        }
    }

    /// Takes back the message of this blocked send, if it isn't `Accepted` yet. Doesn't allocate.
    pub fn withdraw_send(&mut self, ticket: u64) -> Reply<T, A>
        ensures step { Extends self.old (Step.WithdrawSend ticket) result self.new }
        ensures becomes_due { IsReachable A self.old
            → BecomesDue self.old (Step.WithdrawSend ticket) result self.new }
        ensures possible_reply { PossibleReply (Step.WithdrawSend ticket) result }
        ensures space { self.old.space ≤ self.new.space }
        ensures no_ticket { get self.old.sends ticket ≡ None → result ≡ Reply.NoTicket }
        ensures accepted { (result ≡ Reply.Accepted)
            ↔ (accepted_at self.old ticket ≡ Some true) }
        ensures removed { result ≡ Reply.Accepted
            → self.new ≡ record self.old { sends = remove self.old.sends ticket } }
        ensures returned { (message : T) (closed : Bool) → result ≡ Reply.Returned message closed
            → Returns self.old self.new ticket message closed }
        ensures unchanged { IsRefusal result → self.new ≡ self.old }
    {
        match self.line.accepted(ticket) {
            None => Reply::NoTicket,
            Some(true) => self.answer_accepted(ticket),
            Some(false) => self.take_back(ticket),
        }
    }

    fn answer_accepted(&mut self, ticket: u64) -> Reply<T, A>
        requires known { accepted_at self.old ticket ≡ Some true }
        ensures accepted { result ≡ Reply.Accepted }
        ensures removed { self.new ≡ record self.old { sends = remove self.old.sends ticket } }
    {
        self.line.spend_accepted(ticket);
        Reply::Accepted
    }

    fn take_back(&mut self, ticket: u64) -> Reply<T, A>
        ensures returned { (message : T) (closed : Bool) → result ≡ Reply.Returned message closed
            → Returns self.old self.new ticket message closed }
        ensures absent { result ≡ Reply.NoTicket
            → All (λ b. b.ticket ≢ ticket) self.old.blocked }
        ensures no_ticket_or_returned { (result ≡ Reply.NoTicket)
            ⊎ ((message : T) × (closed : Bool) × (result ≡ Reply.Returned message closed)) }
        ensures space { self.new.space ≡ self.old.space }
        ensures unchanged { IsRefusal result → self.new ≡ self.old }
    {
        let closed = !self.is_open();
        match self.line.withdraw(ticket) {
            Some(message) => Reply::Returned { message, closed },
            None => Reply::NoTicket,
        }
    }

    fn replace_signal(&mut self, ticket: u64, signal: Option<S>)
        ensures replaced { self.new ≡ record self.old {
          sends = with_send_notice (with_signal signal) ticket self.old.sends;
        } }
    {
        if let Some(signal) = signal {
            self.line.set_signal(ticket, signal);
        }
    }
}
