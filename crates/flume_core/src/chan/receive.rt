//! The steps of receivers.
ghost use Rattle.std.specs.Prelude.{◌≡◌, ◌≢◌, ◌<◌, ◌≤◌, ◌↔◌, ℕ, List, [], ◌∷◌};
ghost use Rattle.std.specs.Prelude.{IfNone, IfSome, Option, None, Vec};
ghost use Rattle.flume_model.specs.Limits.{IsOpen, IsClosed, most};
ghost use Rattle.flume_state.specs.Effects.{after_admission, after_admission_if_room};
ghost use Rattle.flume_state.specs.Effects.{after_take, with_front};
ghost use Rattle.flume_state.specs.Effects.{after_admissions, with_peak, Begins};
ghost use Rattle.flume_state.specs.State.{State};
ghost use Rattle.flume_core.specs.Represents.{Extends, IsReachable, IsRefusal};
ghost use Rattle.flume_state.specs.Due.{BecomesDue};
ghost use Rattle.flume_core.specs.PossibleReply.{PossibleReply};

use super::Chan;
use flume_model::step::{Kind, Reply, Step};
use std::alloc::Allocator;

impl<T: Drop, S: Drop, A: Allocator + Copy> Chan<T, S, A> {
    /// Asks for the message at the front. `Got`: then the first blocked message moves in if the
    /// queue is below its capacity. Doesn't allocate.
    /// ```
    /// let mut chan: Chan<u64, ()> = Chan::new(alloc, None);
    /// chan.try_send(42);
    /// chan.try_recv();                   // Got(42)
    /// chan.try_recv();                   // Empty
    /// ```
    #[inline(always)]
    pub fn try_recv(&mut self) -> Reply<T, A>
        ensures step { Extends self.old Step.TryRecv result self.new }
        ensures becomes_due { IsReachable A self.old
            → BecomesDue self.old Step.TryRecv result self.new }
        ensures possible_reply { PossibleReply Step.TryRecv result }
        ensures space { self.old.space ≤ self.new.space }
        ensures got { (message : T) (rest : List T) → (with_front self.old).queue ≡ message ∷ rest
            → (result ≡ Reply.Got message)
            × (self.new ≡ after_take rest self.old) }
        ensures ended { (result ≡ Reply.Ended)
            ↔ ((with_front self.old).queue ≡ []) × IsClosed self.old.senders self.old.receivers }
        ensures empty { (result ≡ Reply.Empty)
            ↔ ((with_front self.old).queue ≡ []) × IsOpen self.old.senders self.old.receivers }
        ensures unchanged { IsRefusal result → self.new ≡ self.old }
    {
        match self.take_front() {
            Some(message) => Reply::Got(message),
            None if self.is_open() => Reply::Empty,
            None => Reply::Ended,
        }
    }

    /// As `try_recv`, never `Empty`: it parks behind all others, or answers `NoMemory` or `Spent`.
    /// ```
    /// let mut chan: Chan<u64, u32> = Chan::new(alloc, None);
    /// chan.recv(Kind::Block, 10);        // Parked(1), with the signal 10
    /// chan.try_send(7);                  // Sent { filled: Some(1) }
    /// chan.poll(1, None);                // Got(7)
    /// ```
    pub fn recv(&mut self, kind: Kind, signal: S) -> Reply<T, A>
        ensures step { Extends self.old (Step.Recv kind) result self.new }
        ensures becomes_due { IsReachable A self.old
            → BecomesDue self.old (Step.Recv kind) result self.new }
        ensures possible_reply { PossibleReply (Step.Recv kind) result }
        ensures space { self.old.space ≤ self.new.space }
        ensures got { (message : T) (rest : List T) → (with_front self.old).queue ≡ message ∷ rest
            → (result ≡ Reply.Got message) × (self.new ≡ after_take rest self.old) }
        ensures ended { (result ≡ Reply.Ended)
            ↔ ((with_front self.old).queue ≡ []) × IsClosed self.old.senders self.old.receivers }
        ensures spent { (result ≡ Reply.Spent None)
            ↔ ((with_front self.old).queue ≡ []) × IsOpen self.old.senders self.old.receivers
            × (most ≤ self.old.next_ticket) }
        ensures parked { (ticket : ℕ) → result ≡ Reply.Parked ticket
            → Begins self.old self.new ticket kind signal }
        ensures refused { (back : Option T) → result ≡ Reply.NoMemory back
            → ((with_front self.old).queue ≡ []) × IsOpen self.old.senders self.old.receivers
            × (self.old.next_ticket < most) }
        ensures unchanged { IsRefusal result → self.new ≡ self.old }
    {
        match self.try_recv() {
            Reply::Empty => {}
            reply => return reply,
        }
        let ticket = self.next_ticket;
        if ticket == u64::MAX {
            return Reply::Spent(None);
        }
        if self.entries.park(ticket, kind, signal).is_err() {
            return Reply::NoMemory(None);
        }
        self.next_ticket = ticket + 1;
        self.count_waiting();
        Reply::Parked(ticket)
    }

    /// Takes all queued messages, in order, and lets blocked ones in while the queue has room.
    /// `NoMemory`: some are queued, and there was no room for their list.
    /// ```
    /// let mut chan: Chan<u64, ()> = Chan::new(alloc, None);
    /// chan.try_send(1);
    /// chan.try_send(2);
    /// chan.drain();                      // Drained([1, 2])
    /// ```
    pub fn drain(&mut self) -> Reply<T, A>
        ensures step { Extends self.old Step.Drain result self.new }
        ensures becomes_due { IsReachable A self.old
            → BecomesDue self.old Step.Drain result self.new }
        ensures possible_reply { PossibleReply Step.Drain result }
        ensures space { self.old.space ≤ self.new.space }
        ensures drained { (list : Vec T A) → result ≡ Reply.Drained list
            → (list.items ≡ self.old.queue)
            × (self.new ≡ after_admissions (record self.old { queue = [] })) }
        ensures refused { (back : Option T) → result ≡ Reply.NoMemory back
            → self.old.queue ≢ [] }
        ensures unchanged { IsRefusal result → self.new ≡ self.old }
    {
        let Ok(list) = self.line.drain_queued() else {
            return Reply::NoMemory(None);
        };
        self.fill_up();
        Reply::Drained(list)
    }

    // The queue has room for the blocked messages too, so nothing is allocated.
    #[inline(always)]
    pub(super) fn take_front(&mut self) -> Option<T>
        ensures some { IfSome result (λ message. (rest : List T)
            × ((with_front self.old).queue ≡ message ∷ rest)
            × (self.new ≡ after_take rest self.old)) }
        ensures none { IfNone result ((with_front self.old).queue ≡ []) }
        ensures unchanged { IfNone result (self.new ≡ self.old) }
    {
        if self.line.blocked_len() == 0 {
            return self.line.take_queued();
        }
        self.take_front_and_admit()
    }

    #[cold]
    #[inline(never)]
    fn take_front_and_admit(&mut self) -> Option<T>
        ensures some { IfSome result (λ message. (rest : List T)
            × ((with_front self.old).queue ≡ message ∷ rest)
            × (self.new ≡ after_take rest self.old)) }
        ensures none { IfNone result ((with_front self.old).queue ≡ []) }
        ensures unchanged { IfNone result (self.new ≡ self.old) }
    {
        self.bring_to_front();
        let message = self.line.take_queued()?;
        self.refill();
        Some(message)
    }

    #[inline(always)]
    fn bring_to_front(&mut self)
        ensures front { self.new ≡ with_front self.old }
    {
        if self.line.queued_len() == 0 {
            self.admit();
        }
    }

    #[inline(always)]
    fn refill(&mut self)
        ensures refilled { self.new ≡ after_admission_if_room self.old }
    {
        if self.has_room() {
            self.admit();
        }
    }

    #[inline(always)]
    fn admit(&mut self)
        ensures admitted { self.new ≡ after_admission self.old }
    {
        self.line.admit();
    }

    pub(super) fn fill_up(&mut self)
        ensures filled { self.new ≡ after_admissions self.old }
    {
        while self.line.blocked_len() > 0 {
            if !self.has_room() {
                return;
            }
            self.admit();
        }
    }

    pub(super) fn count_waiting(&mut self)
        ensures counted { self.new ≡ with_peak self.old.entries self.old }
    {
        self.peak = self.peak.max(self.entries.waiting());
    }
}
