//! Elements in order, each found by its ticket through a hash table.
ghost use Rattle.std.specs.Prelude.{◌≡◌, ◌≤◌, ◌++◌, ◌∷◌, ◌↔◌, [], ℕ, true, false};
ghost use Rattle.std.specs.Prelude.{None, Some, length};
ghost use Rattle.std.specs.Prelude.{IsSome, IfOk, IfErr, OnOk, OnErr, option_copied};
ghost use Rattle.std.specs.Option.{option_map, option_copied_mut};
ghost use Rattle.std.specs.Borrow.{sem};
ghost use Rattle.flume_chain.specs.ChainState.{found, without_place, put_before_or_last};
ghost use Rattle.flume_chain.specs.ChainState.{place_after, times, places};
ghost use Rattle.flume_state.specs.layout.WithTicket.{WithTicket, tickets, place_of};
ghost use Rattle.flume_state.specs.layout.TicketChainLends.{lends_value};

use crate::places::Places;
use flume_chain::chain::Chain;
use flume_chain::labelled::LabelledValue;
use std::alloc::Allocator;
use std::cell::Cell;
use std::marker::Model;

/// Elements in order, each with a place and a ticket. Only `insert` can be refused memory.
#[derive(Drop)]
pub struct TicketChain<E, A: Allocator> {
    chain: Chain<u64, E, A>,
    places: Places<A>,
    // Where a ticket was found last: who is due is looked up next, and most steps look up twice.
    recent: Cell<u32>,
}

impl<E, A: Allocator> Model for TicketChain<E, A> {
    ghost use Rattle.std.specs.Prelude.{List};
    ghost use Rattle.flume_chain.specs.ChainState.{ChainItem};
    ghost use Rattle.flume_state.specs.layout.WithTicket.{WithTicket, Agrees};

    ghost Value = { List (ChainItem (WithTicket E)) };

    ghost view = { λ s. s.chain.items };

    ghost invariant = { λ s. Agrees s.chain.items s.places };
}

impl<E: Drop, A: Allocator + Copy> TicketChain<E, A> {
    /// No elements.
    /// ```
    /// let mut chain = TicketChain::new(alloc);
    /// let _ = chain.insert(None, 7, 'a');    // Ok(0)
    /// let _ = chain.insert(Some(0), 8, 'b'); // Ok(1), ahead of 'a'
    /// chain.find(7);                         // Some(0)
    /// chain.next(1);                         // Some(0)
    /// ```
    #[inline(always)]
    pub(crate) fn new(alloc: A) -> Self
        ensures empty { result ≡ [] }
    {
        TicketChain {
            chain: Chain::new(alloc),
            places: Places::new(alloc),
            recent: Cell::new(0),
        }
    }

    /// What holds of every chain. Does nothing.
    #[inline(always)]
    pub(crate) fn facts(&self)
        ensures single { (t : ℕ) → times t (tickets self.now) ≤ 1 }
        ensures apart { (k : ℕ) → times k (places self.now) ≤ 1 }
    {
        let _ = self.chain.len();
    }

    #[inline(always)]
    pub(crate) fn find(&self, ticket: u64) -> Option<u32>
        ensures place { result ≡ place_of ticket self.now }
    {
        match self.places.lone(ticket) {
            Some(place) => Some(place),
            None if self.chain.len() == 0 => None,
            None => self.find_among_many(ticket),
        }
    }

    // Sees whether it is where one was found last, before it asks the table.
    #[inline(never)]
    fn find_among_many(&self, ticket: u64) -> Option<u32>
        ensures place { result ≡ place_of ticket self.now }
    {
        let recent = self.recent.get();
        if self.chain.label(recent).copied() == Some(ticket) {
            return Some(recent);
        }
        let place = self.places.get(ticket)?;
        self.recent.set(place);
        Some(place)
    }

    #[inline(always)]
    pub(crate) fn get(&self, place: u32) -> Option<&E>
        ensures found { option_copied result
            ≡ option_map (λ e. e.value) (found self.now place) }
    {
        self.chain.get(place)
    }

    #[inline(always)]
    pub(crate) fn ticket(&self, place: u32) -> Option<u64>
        ensures ticket { result ≡ option_map (λ e. e.label) (found self.now place) }
    {
        self.recent.set(place);
        self.chain.label(place).copied()
    }

    #[inline(always)]
    pub(crate) fn get_mut(&mut self, place: u32) -> Option<&mut E>
        ensures* writes_back { sem 𝓛 (lends_value E.row A.row A.Allocator self.entry place result) }
        ensures value { option_copied_mut result
            ≡ option_map (λ e. e.value) (found self.old place) }
    {
        match self.chain.get_mut(place) {
            Some(value) => Some(value),
            None => None,
        }
    }

    #[inline(always)]
    pub(crate) fn next(&self, place: u32) -> Option<u32>
        ensures next { result ≡ place_after self.now place }
    {
        self.chain.next(place)
    }

    /// Puts a value with a ticket ahead of the one at a place, or last, and returns its own place.
    /// If memory runs out, an element has the ticket, or the chain is full, the value comes back.
    pub(crate) fn insert(&mut self, next: Option<u32>, ticket: u64, value: E) -> Result<u32, E>
        ensures inserted { IfOk result (λ place. self.new ≡ put_before_or_last self.old next
            (record { place = place; element = record { label = ticket; value = value } })) }
        ensures fresh { IfOk result (λ place. found self.old place ≡ None) }
        ensures new_ticket { OnOk result (place_of ticket self.old ≡ None) }
        ensures fits { OnOk result (length self.new ≤ 4294967295) }
        ensures returned { IfErr result (λ back. back ≡ value) }
        ensures unchanged { OnErr result (self.new ≡ self.old) }
    {
        let element = LabelledValue {
            label: ticket,
            value,
        };
        let place = match self.chain.insert_before(next, element) {
            Ok(place) => place,
            Err(back) => return Err(back.value),
        };
        match self.places.insert(ticket, place) {
            Ok(()) => Ok(place),
            Err(_) => match self.chain.remove(place) {
                Some(back) => Err(back.value),
                None => unreachable!(),
            },
        }
    }

    /// Puts the element at a place behind all others; it keeps its place. `false` if there is none.
    #[inline(always)]
    pub(crate) fn move_back(&mut self, place: u32) -> bool
        ensures moved { result ≡ true → (e : WithTicket E) → found self.old place ≡ Some e
            → self.new ≡ without_place self.old place
            ++ record { place = place; element = e } ∷ [] }
        ensures found { result ≡ true ↔ IsSome (found self.old place) }
        ensures unchanged { result ≡ false → self.new ≡ self.old }
    {
        self.chain.move_back(place)
    }

    #[inline(always)]
    pub(crate) fn discard(&mut self, place: u32)
        ensures removed { self.new ≡ without_place self.old place }
    {
        let Some(ticket) = self.ticket(place) else {
            return;
        };
        self.places.remove(ticket);
        self.chain.discard(place);
    }

    pub(crate) fn clear(&mut self)
        ensures empty { self.new ≡ [] }
    {
        if self.chain.len() > 0 {
            self.chain.clear();
            self.places.clear();
        }
    }
}
