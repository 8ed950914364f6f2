//! The steps of parked receivers, and wake rounds.
ghost use Rattle.std.specs.Prelude.{◌≡◌, ◌≤◌, ◌↔◌, ◌⊎◌, ℕ, Bool, true, List, [], ◌∷◌};
ghost use Rattle.std.specs.Prelude.{Option, Some, None};
ghost use Rattle.flume_model.specs.Limits.{IsOpen, IsClosed, is_closed};
ghost use Rattle.flume_model.specs.Entries.{entry_of, again, passes_on, leave_fills};
ghost use Rattle.flume_model.specs.Entries.{round_for_fills, held_by};
ghost use Rattle.flume_state.specs.Receivers.{receiver_status, looks_at_line, is_unfilled_block};
ghost use Rattle.flume_state.specs.Receivers.{with_receiver_notice, waits_on, only_leaves};
ghost use Rattle.flume_state.specs.declared.entries.ReceiverStatus.TheVariants.{BlockWaiting};
ghost use Rattle.flume_state.specs.declared.entries.ReceiverStatus.TheVariants.{Filled};
ghost use Rattle.flume_state.specs.Effects.{with_front, after_take, without_receiver};
ghost use Rattle.flume_state.specs.Effects.{after_withdrawal, after_wake_round, with_peak, Departs};
ghost use Rattle.flume_state.specs.State.{State};
ghost use Rattle.flume_core.specs.Represents.{Extends, IsReachable, ChangesNothing};
ghost use Rattle.flume_state.specs.Due.{BecomesDue};
ghost use Rattle.flume_core.specs.PossibleReply.{PossibleReply};

use super::Chan;
use flume_model::step::{Reply, Step};
use flume_state::entries::ReceiverStatus;
use std::alloc::Allocator;

impl<T: Drop, S: Drop, A: Allocator + Copy> Chan<T, S, A> {
    /// Asks again, as the parked receiver with this ticket. `Got`: the message that filled it, or,
    /// if it doesn't block or was woken, the front of the line. `Got` and `Ended` spend the ticket.
    /// `Waiting`: behind all others if it was woken; `signal` replaces its own. Doesn't allocate.
    /// ```
    /// let mut chan: Chan<u64, u32> = Chan::new(alloc, None);
    /// chan.recv(Kind::Plain, 10);        // Parked(1)
    /// chan.poll(1, Some(11));            // Waiting, with the signal 11 from here on
    /// ```
    pub fn poll(&mut self, ticket: u64, signal: Option<S>) -> Reply<T, A>
        ensures step { Extends self.old (Step.Poll ticket) result self.new }
        ensures becomes_due { IsReachable A self.old
            → BecomesDue self.old (Step.Poll ticket) result self.new }
        ensures possible_reply { PossibleReply (Step.Poll ticket) result }
        ensures space { self.old.space ≤ self.new.space }
        ensures no_ticket { (result ≡ Reply.NoTicket)
            ↔ (entry_of ticket self.old.entries ≡ None) }
        ensures collected { (message : T)
            → held_by (entry_of ticket self.old.entries) ≡ Some message
            → (result ≡ Reply.Got message) × (self.new ≡ without_receiver ticket self.old) }
        ensures got { (message : T) (rest : List T)
            → looks_at_line (receiver_status ticket self.old.entries) ≡ true
            → (with_front self.old).queue ≡ message ∷ rest
            → (result ≡ Reply.Got message)
            × (self.new ≡ without_receiver ticket (after_take rest self.old)) }
        ensures ended { (result ≡ Reply.Ended)
            ↔ (looks_at_line (receiver_status ticket self.old.entries) ≡ true)
            × ((with_front self.old).queue ≡ []) × IsClosed self.old.senders self.old.receivers }
        ensures waiting { (result ≡ Reply.Waiting)
            ↔ (receiver_status ticket self.old.entries ≡ Some BlockWaiting)
            ⊎ ((looks_at_line (receiver_status ticket self.old.entries) ≡ true)
            × ((with_front self.old).queue ≡ []) × IsOpen self.old.senders self.old.receivers) }
        ensures leaves_at_end { result ≡ Reply.Ended → self.new ≡ without_receiver ticket self.old }
        ensures waits { result ≡ Reply.Waiting → self.new ≡ with_peak
            (again ticket (with_receiver_notice (waits_on signal) ticket self.old.entries))
            self.old }
        ensures unchanged { ChangesNothing (Step.Poll ticket) result → self.new ≡ self.old }
    {
        let Some(status) = self.entries.status(ticket) else {
            return Reply::NoTicket;
        };
        match status {
            ReceiverStatus::Filled => return self.collect(ticket),
            ReceiverStatus::BlockWaiting => {
                self.wait_on(ticket, signal);
                return Reply::Waiting;
            }
            _ => {}
        }
        if let Some(message) = self.take_front() {
            self.entries.remove(ticket);
            return Reply::Got(message);
        }
        if self.is_open() {
            self.wait_on(ticket, signal);
            return Reply::Waiting;
        }
        self.entries.remove(ticket);
        Reply::Ended
    }

    /// Leaves, as the parked receiver with this ticket. `Got`: the message that filled it, or the
    /// front of the line if it blocks. `Gone`: if woken, it passes its wake on. Doesn't allocate.
    /// ```
    /// let mut chan: Chan<u64, u32> = Chan::new(alloc, None);
    /// chan.recv(Kind::Plain, 10);        // Parked(1)
    /// chan.recv(Kind::Block, 11);        // Parked(2)
    /// chan.try_send(5);                  // Sent { filled: None }: the first one is woken
    /// chan.withdraw(1);                  // Gone { closed: false, filled: Some(2) }
    /// ```
    pub fn withdraw(&mut self, ticket: u64) -> Reply<T, A>
        ensures step { Extends self.old (Step.Withdraw ticket) result self.new }
        ensures becomes_due { IsReachable A self.old
            → BecomesDue self.old (Step.Withdraw ticket) result self.new }
        ensures possible_reply { PossibleReply (Step.Withdraw ticket) result }
        ensures space { self.old.space ≤ self.new.space }
        ensures no_ticket { (result ≡ Reply.NoTicket)
            ↔ (entry_of ticket self.old.entries ≡ None) }
        ensures collected { (message : T)
            → held_by (entry_of ticket self.old.entries) ≡ Some message
            → (result ≡ Reply.Got message) × (self.new ≡ without_receiver ticket self.old) }
        ensures got { (message : T) (rest : List T)
            → is_unfilled_block (receiver_status ticket self.old.entries) ≡ true
            → (with_front self.old).queue ≡ message ∷ rest
            → (result ≡ Reply.Got message)
            × (self.new ≡ without_receiver ticket (after_take rest self.old)) }
        ensures gone { (closed : Bool) (filled : Option ℕ) → result ≡ Reply.Gone closed filled
            → Departs self.old self.new ticket closed filled }
        ensures leaves { (result ≡ Reply.Gone (is_closed self.old.senders self.old.receivers)
            (leave_fills ticket self.old.queue self.old.entries))
            ↔ (only_leaves (receiver_status ticket self.old.entries) ≡ true)
            ⊎ ((is_unfilled_block (receiver_status ticket self.old.entries) ≡ true)
            × ((with_front self.old).queue ≡ [])) }
        ensures unchanged { ChangesNothing (Step.Withdraw ticket) result → self.new ≡ self.old }
    {
        let Some(status) = self.entries.status(ticket) else {
            return Reply::NoTicket;
        };
        match status {
            ReceiverStatus::Filled => return self.collect(ticket),
            ReceiverStatus::Waiting => return self.pass_on(ticket, false),
            ReceiverStatus::Woken => return self.pass_on(ticket, true),
            _ => {}
        }
        let front = self.take_front();
        self.entries.remove(ticket);
        if let Some(message) = front {
            return Reply::Got(message);
        }
        let closed = !self.is_open();
        Reply::Gone {
            closed,
            filled: None,
        }
    }

    #[inline(always)]
    pub(super) fn wake(&mut self) -> Option<u64>
        ensures fills { result ≡ round_for_fills self.old.queue self.old.entries }
        ensures round { self.new ≡ after_wake_round self.old }
    {
        self.entries.wake(&mut self.line)
    }

    fn collect(&mut self, ticket: u64) -> Reply<T, A>
        requires filled { receiver_status ticket self.old.entries ≡ Some Filled }
        ensures got { (message : T) × (held_by (entry_of ticket self.old.entries) ≡ Some message)
            × (result ≡ Reply.Got message) }
        ensures becomes { self.new ≡ without_receiver ticket self.old }
    {
        match self.entries.remove(ticket) {
            Some(message) => Reply::Got(message),
            None => Reply::NoTicket,
        }
    }

    fn wait_on(&mut self, ticket: u64, signal: Option<S>)
        requires unfilled { held_by (entry_of ticket self.old.entries) ≡ None }
        ensures waits { self.new ≡ with_peak
            (again ticket (with_receiver_notice (waits_on signal) ticket self.old.entries))
            self.old }
    {
        self.entries.wait_on(ticket, signal);
        self.count_waiting();
    }

    fn pass_on(&mut self, ticket: u64, woken: bool) -> Reply<T, A>
        requires woken { woken ≡ passes_on (entry_of ticket self.old.entries) }
        ensures gone { result ≡ Reply.Gone (is_closed self.old.senders self.old.receivers)
            (leave_fills ticket self.old.queue self.old.entries) }
        ensures becomes { self.new ≡ after_withdrawal ticket self.old }
    {
        self.entries.remove(ticket);
        let closed = !self.is_open();
        let filled = if woken { self.wake() } else { None };
        Reply::Gone { closed, filled }
    }
}
