//! The messages of a channel in their order, each blocked one with the place of its send.
ghost use Rattle.std.specs.Prelude.{◌≡◌, ◌≢◌, ◌<◌, ◌≤◌, ◌+◌, ℕ, [], ◌∷◌, ◌++◌, length, Some, None};
ghost use Rattle.std.specs.Prelude.{IfNone, IfSome, IfOk, IfErr, OnOk, OnErr, IsOk, map};
ghost use Rattle.std.specs.List.{All};
ghost use Rattle.std.specs.Option.{option_and_then};
ghost use Rattle.flume_chain.specs.ChainState.{found, place_after, times};
ghost use Rattle.flume_state.specs.layout.MessageLayout.{AdmitsSend, TakesOut, messages_in_chain};
ghost use Rattle.flume_state.specs.layout.Pairing.{HasLink, link_at, live_sends, under_tickets};
ghost use Rattle.flume_state.specs.Effects.{with_all_due};

use crate::optional_place::OptionalPlace;
use crate::sends::Sends;
use flume_chain::chain::Chain;
use flume_chain::labelled::LabelledValue;
use std::alloc::{AllocError, Allocator};
use std::marker::Model;

/// No call but `push_queued`, `push_blocked` and `drain_queued` can be refused memory.
#[derive(Drop)]
pub struct MessageChain<T, A: Allocator> {
    chain: Chain<OptionalPlace, T, A>,
    blocked: Option<u32>,
    blocked_len: usize,
}

impl<T, A: Allocator> Model for MessageChain<T, A> {
    ghost use Rattle.flume_state.specs.layout.MessageLayout.{MessageList, messages_of, space_of};
    ghost use Rattle.flume_state.specs.layout.MessageLayout.{MessageLayout};

    ghost Value = { MessageList T };

    ghost view = { λ s. messages_of s.chain.items (space_of s.chain) };

    ghost invariant = { λ s. MessageLayout s.chain.items s.blocked s.blocked_len };
}

fn first_without<T: Drop, A: Allocator>(
    chain: &Chain<OptionalPlace, T, A>,
    first: Option<u32>,
    place: u32,
) -> Option<u32>
    ensures next { first ≡ Some place → result ≡ place_after chain.now.items place }
    ensures same { first ≢ Some place → result ≡ first }
{
    if first == Some(place) {
        return chain.next(place);
    }
    first
}

#[inline(always)]
fn send_place_at<T: Drop, A: Allocator>(
    chain: &Chain<OptionalPlace, T, A>,
    place: u32,
) -> Option<u32>
    ensures send_place { result ≡ option_and_then (λ e. e.label) (found chain.now.items place) }
{
    chain.label(place)?.get()
}

impl<T: Drop, A: Allocator + Copy> MessageChain<T, A> {
    /// No messages.
    /// ```
    /// let mut messages = MessageChain::new(alloc);
    /// let _ = messages.push_queued(7);     // Ok(())
    /// let _ = messages.push_blocked(3, 8); // Ok(1): its place
    /// messages.take_queued();              // Some(7)
    /// messages.take_queued();              // None: 8 is blocked
    /// messages.admit();                    // Some(3)
    /// ```
    #[inline(always)]
    pub(crate) fn new(alloc: A) -> Self
        ensures empty { result ≡ record { queued = []; blocked = []; space = 0 } }
    {
        MessageChain {
            chain: Chain::new(alloc),
            blocked: None,
            blocked_len: 0,
        }
    }

    /// What holds of all messages. Does nothing.
    #[inline(always)]
    pub(crate) fn facts(&self)
        ensures apart { (k : ℕ) → times k (map (λ b. b.place) self.now.blocked) ≤ 1 }
    {
        self.chain.facts();
    }

    #[inline(always)]
    pub(crate) fn queued_len(&self) -> usize
        ensures len { result ≡ length self.now.queued }
    {
        self.chain.len() - self.blocked_len
    }

    #[inline(always)]
    pub(crate) fn blocked_len(&self) -> usize
        ensures len { result ≡ length self.now.blocked }
    {
        self.blocked_len
    }

    #[inline(always)]
    pub(crate) fn room(&self) -> usize
        ensures room { result + messages_in_chain self.now ≡ self.now.space }
    {
        self.chain.room()
    }

    #[inline(always)]
    pub(crate) fn push_queued(&mut self, message: T) -> Result<(), T>
        ensures pushed { OnOk result (self.new ≡ record self.old {
          queued = self.old.queued ++ message ∷ [];
          space = self.new.space;
        }) }
        ensures space { self.old.space ≤ self.new.space }
        ensures succeeds { messages_in_chain self.old < self.old.space → IsOk result }
        ensures returned { IfErr result (λ back. back ≡ message) }
        ensures unchanged { OnErr result (self.new ≡ self.old) }
    {
        self.chain.facts();
        let label = OptionalPlace::none();
        let element = LabelledValue {
            label,
            value: message,
        };
        if let Err(back) = self.chain.insert_before(self.blocked, element) {
            return Err(back.value);
        }
        Ok(())
    }

    /// Puts a blocked message behind all others, and returns its place. If memory runs out, or
    /// `send_place` is no place, the message comes back.
    pub(crate) fn push_blocked(&mut self, send_place: u32, message: T) -> Result<u32, T>
        ensures pushed { IfOk result (λ place. self.new ≡ record self.old {
          blocked = self.old.blocked
              ++ record { place = place; send_place = send_place; message = message } ∷ [];
          space = self.new.space;
        }) }
        ensures fresh { IfOk result (λ place. All (λ b. b.place ≢ place) self.old.blocked) }
        ensures space { self.old.space ≤ self.new.space }
        ensures returned { IfErr result (λ back. back ≡ message) }
        ensures unchanged { OnErr result (self.new ≡ self.old) }
    {
        self.chain.facts();
        let Some(label) = OptionalPlace::of(send_place) else {
            return Err(message);
        };
        let queued = self.queued_len();
        let element = LabelledValue {
            label,
            value: message,
        };
        match self.chain.push_back(element) {
            Ok(place) => {
                self.blocked = self.blocked.or(Some(place));
                self.blocked_len = self.chain.len() - queued;
                Ok(place)
            }
            Err(back) => Err(back.value),
        }
    }

    /// Queues the first blocked message, and returns its send's place. `None` if none is blocked.
    #[inline(always)]
    pub(crate) fn admit(&mut self) -> Option<u32>
        ensures admitted { IfSome result (λ send_place. AdmitsSend self.old self.new send_place) }
        ensures none_blocked { IfNone result (self.old.blocked ≡ []) }
        ensures unchanged { IfNone result (self.new ≡ self.old) }
    {
        self.chain.facts();
        let place = self.blocked?;
        let send_place = send_place_at(&self.chain, place)?;
        self.chain.set_label(place, OptionalPlace::none());
        self.blocked = self.chain.next(place);
        self.blocked_len -= 1;
        Some(send_place)
    }

    #[inline(always)]
    pub(crate) fn take_queued(&mut self) -> Option<T>
        ensures taken { IfSome result (λ m.
            self.old ≡ record self.new { queued = m ∷ self.new.queued }) }
        ensures none_queued { IfNone result (self.old.queued ≡ []) }
        ensures unchanged { IfNone result (self.new ≡ self.old) }
    {
        if self.queued_len() == 0 {
            return None;
        }
        Some(self.chain.pop_front()?.value)
    }

    pub(crate) fn drain_queued(&mut self) -> Result<Vec<T, A>, AllocError>
        ensures drained { IfOk result (λ list. list.items ≡ self.old.queued) }
        ensures becomes { OnOk result (self.new ≡ record self.old { queued = [] }) }
        ensures none_queued { OnErr result (self.old.queued ≢ []) }
        ensures unchanged { OnErr result (self.new ≡ self.old) }
    {
        let mut list = Vec::with_capacity(*self.chain.allocator(), self.queued_len())?;
        while let Some(message) = self.take_queued() {
            list.push_reserved(message);
        }
        Ok(list)
    }

    pub(crate) fn mark_blocked<S: Drop>(&self, sends: &mut Sends<S, A>)
        requires owned { All (HasLink sends.old) self.now.blocked }
        ensures marked { live_sends sends.new
            ≡ with_all_due (under_tickets sends.old self.now.blocked) (live_sends sends.old) }
        ensures links { (k : ℕ) → link_at sends.new k ≡ link_at sends.old k }
    {
        self.chain.facts();
        let mut next = self.blocked;
        while let Some(place) = next {
            if let Some(send_place) = send_place_at(&self.chain, place) {
                sends.mark_due(send_place);
            }
            next = self.chain.next(place);
        }
    }

    pub(crate) fn withdraw(&mut self, place: u32) -> Option<T>
        ensures taken { IfSome result (λ m. TakesOut self.old self.new place m) }
        ensures absent { IfNone result (All (λ b. b.place ≢ place) self.old.blocked) }
        ensures unchanged { IfNone result (self.new ≡ self.old) }
    {
        self.chain.facts();
        send_place_at(&self.chain, place)?;
        let first = first_without(&self.chain, self.blocked, place);
        let element = self.chain.remove(place)?;
        self.blocked = first;
        self.blocked_len -= 1;
        Some(element.value)
    }

    pub(crate) fn clear(&mut self)
        ensures empty { self.new ≡ record self.old { queued = []; blocked = [] } }
    {
        self.chain.clear();
        self.blocked = None;
        self.blocked_len = 0;
    }
}
