//! The live send tickets of a channel: each send that blocked and isn't spent.
ghost use Rattle.std.specs.Prelude.{◌≡◌, ◌==◌, ℕ, true, false, [], Some, None};
ghost use Rattle.std.specs.Prelude.{OnOk, OnErr, IfOk, IfSome, IfNone, if◌then◌else◌};
ghost use Rattle.std.specs.Option.{option_map, option_copied};
ghost use Rattle.std.specs.FinMap.{get, insert, remove};
ghost use Rattle.flume_state.specs.Notices.{due_now, no_longer_due, with_signal};
ghost use Rattle.flume_state.specs.Sends.{newly_blocked, accepted_now, with_send_changed};
ghost use Rattle.flume_state.specs.Sends.{with_send_notice};
ghost use Rattle.flume_state.specs.Sends.{is_due_send, NoDueSend};
ghost use Rattle.flume_state.specs.layout.SendLayout.{due_accepting};
ghost use Rattle.flume_state.specs.layout.Pairing.{Link, link_at, live_sends, at_message};
ghost use Rattle.flume_state.specs.layout.Pairing.{accepting};

use crate::notice::Notice;
use crate::ticket_chain::TicketChain;
use std::alloc::{AllocError, Allocator};
use std::marker::Model;

/// A send that blocked and isn't spent.
#[derive(Drop)]
pub struct LiveSend<S> {
    /// Whether its message was taken into the queue.
    pub accepted: bool,
    /// The sender's signal, and whether the ticket is due.
    pub notice: Notice<S>,
}

/// A live send, with the place of its message.
#[derive(Drop)]
pub struct PlacedSend<S> {
    /// Where its message is in the chain of messages, while it is blocked.
    pub message: u32,
    /// The send.
    pub send: LiveSend<S>,
}

/// The live send of each live ticket, each at a place that it keeps. Only `block` can be
/// refused memory.
#[derive(Drop)]
pub struct Sends<S, A: Allocator> {
    // First those that aren't due, then those that are, in the order in which they became due.
    chain: TicketChain<PlacedSend<S>, A>,
    due: Option<u32>,
}

impl<S, A: Allocator> Model for Sends<S, A> {
    ghost use Rattle.flume_state.specs.layout.SendLayout.{SendLayout};
    ghost use Rattle.flume_state.specs.layout.Pairing.{SendList, sends_in};

    ghost Value = { SendList S };

    ghost view = { λ s. s.chain };

    ghost invariant = { λ s. SendLayout (sends_in s.chain) s.due };
}

impl<S: Drop, A: Allocator + Copy> Sends<S, A> {
    /// No ticket is live.
    /// ```
    /// let mut sends = Sends::new(alloc);
    /// let _ = sends.block(7, ());        // Ok(0): its place
    /// sends.accepted(7);                 // Some(false)
    /// sends.accept(0);
    /// sends.accepted(7);                 // Some(true)
    /// sends.next_due();                  // Some(7)
    /// ```
    #[inline(always)]
    pub(crate) fn new(alloc: A) -> Self
        ensures empty { result ≡ [] }
    {
        Sends {
            chain: TicketChain::new(alloc),
            due: None,
        }
    }

    /// Makes `ticket` live, blocked and not due, and returns its place. If memory runs out, or the
    /// ticket is live already, nothing changes.
    #[inline(always)]
    pub(crate) fn block(&mut self, ticket: u64, signal: S) -> Result<u32, AllocError>
        ensures live { OnOk result (live_sends self.new
            ≡ insert (live_sends self.old) ticket (newly_blocked signal)) }
        ensures link { IfOk result (λ p. (k : ℕ) → link_at self.new k ≡ if k == p
            then Some (record { ticket = ticket; message = 0; accepted = false })
            else link_at self.old k) }
        ensures fresh { IfOk result (λ p. link_at self.old p ≡ None) }
        ensures absent { OnOk result (get (live_sends self.old) ticket ≡ None) }
        ensures err { OnErr result (self.new ≡ self.old) }
    {
        self.chain.facts();
        let notice = Notice { signal, due: false };
        let send = LiveSend {
            accepted: false,
            notice,
        };
        let placed = PlacedSend { message: 0, send };
        match self.chain.insert(self.due, ticket, placed) {
            Ok(place) => Ok(place),
            Err(_) => Err(AllocError),
        }
    }

    #[inline(always)]
    pub(crate) fn set_message(&mut self, place: u32, message: u32)
        ensures live { live_sends self.new ≡ live_sends self.old }
        ensures link { (k : ℕ) → link_at self.new k ≡ if k == place
            then option_map (at_message message) (link_at self.old k) else link_at self.old k }
    {
        self.chain.facts();
        let Some(placed) = self.chain.get_mut(place) else {
            return;
        };
        placed.message = message;
    }

    /// The places of the blocked send with this ticket and of its message. `None` if there is none.
    #[inline(always)]
    pub(crate) fn blocked_at(&self, ticket: u64) -> Option<(u32, u32)>
        ensures found { IfSome result (λ b. link_at self.now b.0
            ≡ Some (record { ticket = ticket; message = b.1; accepted = false })) }
        ensures only { IfSome result (λ b. (k : ℕ) (l : Link) → link_at self.now k ≡ Some l
            → l.ticket ≡ ticket → k ≡ b.0) }
        ensures absent { IfNone result ((k : ℕ) (l : Link) → link_at self.now k ≡ Some l
            → l.ticket ≡ ticket → l.accepted ≡ true) }
    {
        self.chain.facts();
        let place = self.chain.find(ticket)?;
        let placed = self.chain.get(place)?;
        if placed.send.accepted {
            return None;
        }
        Some((place, placed.message))
    }

    #[inline(always)]
    pub(crate) fn accepted(&self, ticket: u64) -> Option<bool>
        ensures value { result
            ≡ option_map (λ s. s.accepted) (get (live_sends self.now) ticket) }
    {
        Some(self.get(ticket)?.accepted)
    }

    #[inline(always)]
    pub(crate) fn signal(&self, ticket: u64) -> Option<&S>
        ensures value { option_copied result
            ≡ option_map (λ s. s.notice.signal) (get (live_sends self.now) ticket) }
    {
        Some(&self.get(ticket)?.notice.signal)
    }

    #[inline(always)]
    fn get(&self, ticket: u64) -> Option<&LiveSend<S>>
        ensures value { option_copied result ≡ get (live_sends self.now) ticket }
    {
        self.chain.facts();
        let place = self.chain.find(ticket)?;
        Some(&self.chain.get(place)?.send)
    }

    pub(crate) fn set_signal(&mut self, ticket: u64, signal: S)
        ensures live { live_sends self.new
            ≡ with_send_notice (with_signal (Some signal)) ticket (live_sends self.old) }
        ensures links { (k : ℕ) → link_at self.new k ≡ link_at self.old k }
    {
        self.chain.facts();
        let Some(place) = self.chain.find(ticket) else {
            return;
        };
        let Some(placed) = self.chain.get_mut(place) else {
            return;
        };
        placed.send.notice.signal = signal;
    }

    #[inline(never)]
    pub(crate) fn accept(&mut self, place: u32)
        ensures live { IfSome (link_at self.old place) (λ l. live_sends self.new
            ≡ with_send_changed (live_sends self.old) l.ticket accepted_now) }
        ensures link { (k : ℕ) → link_at self.new k ≡ if k == place
            then option_map (accepting true) (link_at self.old k) else link_at self.old k }
    {
        self.make_due(place, true);
    }

    pub(crate) fn mark_due(&mut self, place: u32)
        ensures live { IfSome (link_at self.old place) (λ l. live_sends self.new
            ≡ with_send_notice due_now l.ticket (live_sends self.old)) }
        ensures links { (k : ℕ) → link_at self.new k ≡ link_at self.old k }
    {
        self.make_due(place, false);
    }

    fn make_due(&mut self, place: u32, accepts: bool)
        ensures live { IfSome (link_at self.old place) (λ l. live_sends self.new
            ≡ with_send_changed (live_sends self.old) l.ticket (due_accepting accepts)) }
        ensures link { (k : ℕ) → link_at self.new k ≡ if k == place
            then option_map (accepting accepts) (link_at self.old k) else link_at self.old k }
    {
        self.chain.facts();
        let Some(placed) = self.chain.get_mut(place) else {
            return;
        };
        let was_due = placed.send.notice.due;
        placed.send.accepted = accepts | placed.send.accepted;
        placed.send.notice.due = true;
        if !was_due {
            self.chain.move_back(place);
            self.due = self.due.or(Some(place));
        }
    }

    #[inline(always)]
    pub(crate) fn find(&self, ticket: u64) -> Option<u32>
        ensures found { IfSome result (λ p. option_map (λ l. l.ticket) (link_at self.now p)
            ≡ Some ticket) }
        ensures accepted { IfSome result (λ p. option_map (λ l. l.accepted) (link_at self.now p)
            ≡ option_map (λ s. s.accepted) (get (live_sends self.now) ticket)) }
        ensures absent { IfNone result (get (live_sends self.now) ticket ≡ None) }
    {
        self.chain.facts();
        self.chain.find(ticket)
    }

    #[inline(always)]
    pub(crate) fn spend(&mut self, place: u32)
        ensures live { IfSome (link_at self.old place) (λ l. live_sends self.new
            ≡ remove (live_sends self.old) l.ticket) }
        ensures link { (k : ℕ) → link_at self.new k ≡ if k == place then None
            else link_at self.old k }
        ensures none { IfNone (link_at self.old place) (self.new ≡ self.old) }
    {
        self.chain.facts();
        if self.due == Some(place) {
            self.due = self.chain.next(place);
        }
        self.chain.discard(place);
    }

    #[inline(always)]
    pub(crate) fn next_due(&mut self) -> Option<u64>
        ensures was_due { IfSome result (λ t. is_due_send (live_sends self.old) t ≡ true) }
        ensures taken { IfSome result (λ t. live_sends self.new
            ≡ with_send_notice no_longer_due t (live_sends self.old)) }
        ensures links { (k : ℕ) → link_at self.new k ≡ link_at self.old k }
        ensures none_due { IfNone result (NoDueSend (live_sends self.old)) }
        ensures unchanged { IfNone result (self.new ≡ self.old) }
    {
        match self.due {
            Some(_) => self.take_first_due(),
            None => None,
        }
    }

    #[cold]
    #[inline(never)]
    fn take_first_due(&mut self) -> Option<u64>
        ensures was_due { IfSome result (λ t. is_due_send (live_sends self.old) t ≡ true) }
        ensures taken { IfSome result (λ t. live_sends self.new
            ≡ with_send_notice no_longer_due t (live_sends self.old)) }
        ensures links { (k : ℕ) → link_at self.new k ≡ link_at self.old k }
        ensures none_due { IfNone result (NoDueSend (live_sends self.old)) }
        ensures unchanged { IfNone result (self.new ≡ self.old) }
    {
        self.chain.facts();
        let place = self.due?;
        let ticket = self.chain.ticket(place)?;
        let placed = self.chain.get_mut(place)?;
        placed.send.notice.due = false;
        self.due = self.chain.next(place);
        Some(ticket)
    }

    pub(crate) fn clear(&mut self)
        ensures empty { self.new ≡ [] }
    {
        self.chain.clear();
        self.due = None;
    }
}
