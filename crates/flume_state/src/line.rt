//! The line of a channel: its queued messages, its blocked ones, and the live sends.
ghost use Rattle.std.specs.Prelude.{◌≡◌, ◌≢◌, ◌<◌, ◌≤◌, ◌+◌, true, false, [], ◌∷◌, ◌++◌, length};
ghost use Rattle.std.specs.Prelude.{Some, None, IfNone, IfSome, IfOk, IfErr, OnOk, OnErr, IsOk};
ghost use Rattle.std.specs.List.{All};
ghost use Rattle.std.specs.Option.{option_map, option_copied};
ghost use Rattle.std.specs.FinMap.{empty, get, insert, remove};
ghost use Rattle.flume_state.specs.Messages.{Admits, TakesBack, count};
ghost use Rattle.flume_state.specs.Notices.{no_longer_due, with_signal};
ghost use Rattle.flume_state.specs.Sends.{newly_blocked, with_send_notice, is_due_send, NoDueSend};
ghost use Rattle.flume_state.specs.Effects.{with_all_due};

use crate::messages::MessageChain;
use crate::sends::Sends;
use std::alloc::{AllocError, Allocator};
use std::marker::Model;

/// The messages and the live sends. No call but `push_queued`, `block` and
/// `drain_queued` can be refused memory.
#[derive(Drop)]
pub struct Line<T, S, A: Allocator> {
    // A blocked message and its send have each other's place.
    messages: MessageChain<T, A>,
    sends: Sends<S, A>,
}

impl<T, S, A: Allocator> Model for Line<T, S, A> {
    ghost use Rattle.std.specs.Coded.{codes};
    ghost use Rattle.flume_state.specs.Messages.{Messages};
    ghost use Rattle.flume_state.specs.Sends.{send_map_code};
    ghost use Rattle.flume_state.specs.layout.Pairing.{Pairing, live_sends, under_tickets};

    ghost Value = { Messages T S };

    ghost coded = { Prim.hlevel (codes, send_map_code S.code) };

    ghost view = { λ s. record {
      queued = s.messages.queued;
      blocked = under_tickets s.sends s.messages.blocked;
      space = s.messages.space;
      sends = live_sends s.sends;
    } };

    ghost invariant = { λ s. Pairing s.messages.blocked s.sends };
}

// Some methods only forward, so that neither part changes without the other.
impl<T: Drop, S: Drop, A: Allocator + Copy> Line<T, S, A> {
    /// No messages and no sends.
    /// ```
    /// let mut line: Line<u64, (), Global> = Line::new(alloc);
    /// let _ = line.push_queued(7);       // Ok(())
    /// let _ = line.block(1, 8, ());      // Ok(())
    /// line.take_queued();                // Some(7)
    /// line.take_queued();                // None: 8 is blocked
    /// ```
    #[inline(always)]
    pub fn new(alloc: A) -> Self
        ensures empty { result ≡ record { queued = []; blocked = []; space = 0; sends = empty } }
    {
        Line {
            messages: MessageChain::new(alloc),
            sends: Sends::new(alloc),
        }
    }

    /// How many messages are queued. Reads counts.
    #[inline(always)]
    pub fn queued_len(&self) -> usize
        ensures len { result ≡ length self.now.queued }
    {
        self.messages.queued_len()
    }

    /// How many messages are blocked. Reads a count.
    #[inline(always)]
    pub fn blocked_len(&self) -> usize
        ensures len { result ≡ length self.now.blocked }
    {
        self.messages.blocked_len()
    }

    /// How many more messages fit before one needs an allocation.
    #[inline(always)]
    pub fn room(&self) -> usize
        ensures room { result + count self.now ≡ self.now.space }
    {
        self.messages.room()
    }

    /// Queues a message behind the queued ones. If memory runs out, it comes back.
    #[inline(always)]
    pub fn push_queued(&mut self, message: T) -> Result<(), T>
        ensures pushed { OnOk result (self.new ≡ record self.old {
          queued = self.old.queued ++ message ∷ [];
          space = self.new.space;
        }) }
        ensures space { self.old.space ≤ self.new.space }
        ensures succeeds { count self.old < self.old.space → IsOk result }
        ensures returned { IfErr result (λ back. back ≡ message) }
        ensures unchanged { OnErr result (self.new ≡ self.old) }
    {
        self.messages.push_queued(message)
    }

    /// Puts a message behind all others, blocked under this ticket and not due. If memory runs out,
    /// or the ticket is live already, the message comes back.
    pub fn block(&mut self, ticket: u64, message: T, signal: S) -> Result<(), T>
        ensures blocked { OnOk result (self.new ≡ record self.old {
          blocked = self.old.blocked ++ record { ticket = ticket; message = message } ∷ [];
          space = self.new.space;
          sends = insert self.old.sends ticket (newly_blocked signal);
        }) }
        ensures space { self.old.space ≤ self.new.space }
        ensures returned { IfErr result (λ back. back ≡ message) }
        ensures unchanged { OnErr result (self.new ≡ self.old) }
    {
        // The send first: memory for the message would stay after a refusal, as more room.
        let Ok(send_place) = self.sends.block(ticket, signal) else {
            return Err(message);
        };
        match self.messages.push_blocked(send_place, message) {
            Ok(place) => {
                self.sends.set_message(send_place, place);
                Ok(())
            }
            Err(back) => {
                self.sends.spend(send_place);
                Err(back)
            }
        }
    }

    /// Queues the first blocked message: its send is accepted, and due. False if none is blocked.
    #[inline(always)]
    pub fn admit(&mut self) -> bool
        ensures admitted { result ≡ true → Admits self.old self.new }
        ensures none_blocked { result ≡ false → self.old.blocked ≡ [] }
        ensures unchanged { result ≡ false → self.new ≡ self.old }
    {
        self.messages.facts();
        let Some(send_place) = self.messages.admit() else {
            return false;
        };
        self.sends.accept(send_place);
        true
    }

    /// Takes the message at the front of the queue. `None` if none is queued.
    #[inline(always)]
    pub fn take_queued(&mut self) -> Option<T>
        ensures taken { IfSome result (λ m.
            self.old ≡ record self.new { queued = m ∷ self.new.queued }) }
        ensures none_queued { IfNone result (self.old.queued ≡ []) }
        ensures unchanged { IfNone result (self.new ≡ self.old) }
    {
        self.messages.take_queued()
    }

    /// Takes all queued messages. If there is no memory for their list, nothing changes.
    #[inline(always)]
    pub fn drain_queued(&mut self) -> Result<Vec<T, A>, AllocError>
        ensures drained { IfOk result (λ list. list.items ≡ self.old.queued) }
        ensures becomes { OnOk result (self.new ≡ record self.old { queued = [] }) }
        ensures none_queued { OnErr result (self.old.queued ≢ []) }
        ensures unchanged { OnErr result (self.new ≡ self.old) }
    {
        self.messages.drain_queued()
    }

    /// Marks the send of each blocked message due, the first one's first.
    #[inline(always)]
    pub fn mark_blocked(&mut self)
        ensures marked { self.new ≡ record self.old {
          sends = with_all_due self.old.blocked self.old.sends;
        } }
    {
        self.messages.mark_blocked(&mut self.sends);
    }

    /// Takes out the first blocked message with this ticket, which is spent. `None` if none has it.
    pub fn withdraw(&mut self, ticket: u64) -> Option<T>
        ensures taken { IfSome result (λ m. TakesBack self.old self.new ticket m) }
        ensures absent { IfNone result (All (λ b. b.ticket ≢ ticket) self.old.blocked) }
        ensures unchanged { IfNone result (self.new ≡ self.old) }
    {
        self.messages.facts();
        let (send_place, place) = self.sends.blocked_at(ticket)?;
        let message = self.messages.withdraw(place)?;
        self.sends.spend(send_place);
        Some(message)
    }

    /// Whether the message of a live ticket was accepted. `None` if the ticket isn't live.
    #[inline(always)]
    pub fn accepted(&self, ticket: u64) -> Option<bool>
        ensures value { result ≡ option_map (λ s. s.accepted) (get self.now.sends ticket) }
    {
        self.sends.accepted(ticket)
    }

    /// The signal that the sender of a live ticket left last. `None` if the ticket isn't live.
    #[inline(always)]
    pub fn signal(&self, ticket: u64) -> Option<&S>
        ensures value { option_copied result
            ≡ option_map (λ s. s.notice.signal) (get self.now.sends ticket) }
    {
        self.sends.signal(ticket)
    }

    /// Replaces the signal of a live ticket. Nothing changes if the ticket isn't live.
    #[inline(always)]
    pub fn set_signal(&mut self, ticket: u64, signal: S)
        ensures replaced { self.new ≡ record self.old {
          sends = with_send_notice (with_signal (Some signal)) ticket self.old.sends;
        } }
    {
        self.sends.set_signal(ticket, signal);
    }

    /// Spends the ticket, whose message was accepted.
    #[inline(always)]
    pub fn spend_accepted(&mut self, ticket: u64)
        requires accepted { option_map (λ s. s.accepted) (get self.old.sends ticket) ≡ Some true }
        ensures spent { self.new ≡ record self.old { sends = remove self.old.sends ticket } }
    {
        if let Some(place) = self.sends.find(ticket) {
            self.sends.spend(place);
        }
    }

    /// A live ticket that was due, and isn't afterwards. `None` if none is due. Searches nothing.
    #[inline(always)]
    pub fn next_due(&mut self) -> Option<u64>
        ensures was_due { IfSome result (λ t. is_due_send self.old.sends t ≡ true) }
        ensures taken { IfSome result (λ t. self.new ≡ record self.old {
          sends = with_send_notice no_longer_due t self.old.sends;
        }) }
        ensures none_due { IfNone result (NoDueSend self.old.sends) }
        ensures unchanged { IfNone result (self.new ≡ self.old) }
    {
        self.sends.next_due()
    }

    /// Drops every message, queued and blocked; no ticket is live any more.
    pub fn clear(&mut self)
        ensures empty { self.new
            ≡ record self.old { queued = []; blocked = []; sends = empty } }
    {
        self.messages.clear();
        self.sends.clear();
    }
}
