//! Elements in order, each a value with a label. One is taken out without a search.
ghost use Rattle.std.specs.Prelude.{◌≡◌, ◌<◌, ◌≤◌, ◌+◌, ◌++◌, ◌∷◌, ◌↔◌, [], Some, None, length, ℕ};
ghost use Rattle.std.specs.Prelude.{IsOk, IfOk, IfErr, OnOk, OnErr, IfNone, OnSome, IsSome};
ghost use Rattle.std.specs.Prelude.{true, false, option_copied};
ghost use Rattle.std.specs.Option.{option_map, option_copied_mut};
ghost use Rattle.std.specs.Borrow.{sem};
ghost use Rattle.flume_chain.specs.ChainState.{found, without_place, put_before_or_last};
ghost use Rattle.flume_chain.specs.ChainState.{place_after, first_element, behind_first};
ghost use Rattle.flume_chain.specs.ChainState.{moved_back, times, places};
ghost use Rattle.flume_chain.specs.ChangedAt.{with_label_at};

mod links;
mod node;

use crate::labelled::LabelledValue;
use links::{Links, NIL};
use std::alloc::Allocator;
use std::marker::Model;

/// Elements in order, each with a label and a place. No call but `push_back` and
/// `insert_before` can be refused memory.
#[derive(Drop)]
pub struct Chain<L, E, A: Allocator> {
    links: Links<L, E, A>,
    len: usize,
}

impl<L, E, A: Allocator> Model for Chain<L, E, A> {
    ghost use Rattle.flume_chain.specs.ChainState.{ChainState, chain_of, IsChain};
    ghost use Rattle.flume_chain.specs.declared.labelled.LabelledValue.{LabelledValue};

    ghost Value = { ChainState (LabelledValue L E) };

    ghost view = { λ c. chain_of c.links c.len };

    ghost invariant = { λ c. IsChain c.links c.len };
}

impl<L: Drop, E: Drop, A: Allocator> Chain<L, E, A> {
    ghost use Rattle.flume_chain.specs.Lends.{lends_value, lends_get};

    /// No elements.
    /// ```
    /// let mut chain = Chain::new(alloc);
    /// chain.push_back(LabelledValue { label: 7, value: 'a' }).ok(); // Some(0)
    /// chain.push_back(LabelledValue { label: 8, value: 'b' }).ok(); // Some(1)
    /// chain.get(0).copied();             // Some('a')
    /// chain.label(1).copied();           // Some(8)
    /// chain.next(0);                     // Some(1)
    /// ```
    #[inline(always)]
    pub fn new(alloc: A) -> Self
        ensures empty { result.items ≡ [] }
        ensures room { result.room ≡ 0 }
    {
        Chain {
            links: Links::new(alloc),
            len: 0,
        }
    }

    /// What holds of every chain. Does nothing.
    #[inline(always)]
    pub fn facts(&self)
        ensures apart { (k : ℕ) → times k (places self.now.items) ≤ 1 }
    {
        let _ = self.links.capacity();
    }

    /// How many elements there are. Reads a count.
    #[inline(always)]
    pub fn len(&self) -> usize
        ensures len { result ≡ length self.now.items }
    {
        self.len
    }

    /// How many more elements fit before one needs an allocation.
    #[inline(always)]
    pub fn room(&self) -> usize
        ensures room { result ≡ self.now.room }
    {
        let most = self.links.capacity();
        if most < NIL as usize {
            most - self.len
        } else {
            NIL as usize - self.len
        }
    }

    /// The allocator that memory is taken from.
    #[inline(always)]
    pub fn allocator(&self) -> &A {
        self.links.allocator()
    }

    /// The value at a place. `None` if there is none there.
    #[inline(always)]
    pub fn get(&self, place: u32) -> Option<&E>
        ensures found { option_copied result
            ≡ option_map (λ e. e.value) (found self.now.items place) }
    {
        self.links.get(place)
    }

    /// The label at a place. `None` if there is none there.
    #[inline(always)]
    pub fn label(&self, place: u32) -> Option<&L>
        ensures found { option_copied result
            ≡ option_map (λ e. e.label) (found self.now.items place) }
    {
        self.links.label(place)
    }

    /// The value at a place, for writing. `None` if there is none there.
    #[inline(always)]
    pub fn get_mut(&mut self, place: u32) -> Option<&mut E>
        ensures* writes_back { sem 𝓛
            (lends_get L.row E.row A.row A.Allocator self.entry place result) }
        ensures value { option_copied_mut result
            ≡ option_map (λ e. e.value) (found self.old.items place) }
    {
        if self.get(place).is_some() {
            Some(self.value_mut(place))
        } else {
            None
        }
    }

    #[inline(always)]
    fn value_mut(&mut self, place: u32) -> &mut E
        requires occupied { IsSome (found self.old.items place) }
        ensures* writes_back { sem 𝓛
            (lends_value L.row E.row A.row A.Allocator self.entry place result) }
        ensures value { option_map (λ e. e.value) (found self.old.items place) ≡ Some result.now }
    {
        self.links.value_mut(place)
    }

    /// Replaces the label at a place. Nothing changes if there is no element there.
    #[inline(always)]
    pub fn set_label(&mut self, place: u32, label: L)
        ensures labelled { self.new.items ≡ with_label_at place self.old.items label }
        ensures room { self.new.room ≡ self.old.room }
    {
        self.links.set_label(place, label);
    }

    /// The place of the element behind that at a place. `None` if there is no such element.
    #[inline(always)]
    pub fn next(&self, place: u32) -> Option<u32>
        ensures next { result ≡ place_after self.now.items place }
    {
        let Some(_) = self.links.get(place) else {
            return None;
        };
        let next = self.links.next(place);
        if next == NIL {
            return None;
        }
        Some(next)
    }

    /// Puts an element behind all others, and returns its place. If an allocation fails, or the
    /// chain is full, the element comes back, and the chain is unchanged.
    #[inline(always)]
    pub fn push_back(&mut self, element: LabelledValue<L, E>) -> Result<u32, LabelledValue<L, E>>
        ensures pushed { IfOk result (λ place. self.new.items
            ≡ self.old.items ++ record { place = place; element = element } ∷ []) }
        ensures fresh { IfOk result (λ place. found self.old.items place ≡ None) }
        ensures fits { OnOk result (length self.new.items ≤ 4294967295) }
        ensures room { OnOk result (0 < self.old.room → self.new.room + 1 ≡ self.old.room) }
        ensures succeeds { 0 < self.old.room → IsOk result }
        ensures returned { IfErr result (λ back. back ≡ element) }
        ensures unchanged { OnErr result (self.new ≡ self.old) }
    {
        let place = self.links.link_before(NIL, element)?;
        self.len += 1;
        Ok(place)
    }

    /// Puts an element ahead of that at a place, or last if there is none. It fails as `push_back`.
    #[inline(always)]
    pub fn insert_before(
        &mut self,
        next: Option<u32>,
        element: LabelledValue<L, E>,
    ) -> Result<u32, LabelledValue<L, E>>
        ensures inserted { IfOk result (λ place. self.new.items ≡ put_before_or_last self.old.items
            next (record { place = place; element = element })) }
        ensures fresh { IfOk result (λ place. found self.old.items place ≡ None) }
        ensures fits { OnOk result (length self.new.items ≤ 4294967295) }
        ensures room { OnOk result (0 < self.old.room → self.new.room + 1 ≡ self.old.room) }
        ensures succeeds { 0 < self.old.room → IsOk result }
        ensures returned { IfErr result (λ back. back ≡ element) }
        ensures unchanged { OnErr result (self.new ≡ self.old) }
    {
        let next = match next {
            Some(next) => next,
            None => return self.push_back(element),
        };
        let Some(_) = self.links.get(next) else {
            return self.push_back(element);
        };
        let place = self.links.link_before(next, element)?;
        self.len += 1;
        Ok(place)
    }

    /// Puts the element at a place behind all others; it keeps its place. `false` if there is none.
    #[inline(always)]
    pub fn move_back(&mut self, place: u32) -> bool
        ensures found { result ≡ true ↔ IsSome (found self.old.items place) }
        ensures moved { self.new.items ≡ moved_back self.old.items place }
        ensures room { self.new.room ≡ self.old.room }
        ensures unchanged { result ≡ false → self.new ≡ self.old }
    {
        let Some(_) = self.links.get(place) else {
            return false;
        };
        self.links.unlink(place);
        self.links.link_last(place);
        true
    }

    /// Takes out the element at a place. `None` if there is none there.
    #[inline(always)]
    pub fn remove(&mut self, place: u32) -> Option<LabelledValue<L, E>>
        ensures found { result ≡ found self.old.items place }
        ensures taken { OnSome result (self.new.items ≡ without_place self.old.items place) }
        ensures room { OnSome result (self.new.room ≡ self.old.room + 1) }
        ensures unchanged { IfNone result (self.new ≡ self.old) }
    {
        let Some(element) = self.links.take(place) else {
            return None;
        };
        self.links.unlink_and_free(place);
        self.len -= 1;
        Some(element)
    }

    /// Drops the element at a place. Nothing changes if there is none there.
    // Not by `remove`, which moves the element out, a part at a time and more than once.
    #[inline(always)]
    pub fn discard(&mut self, place: u32)
        ensures removed { self.new.items ≡ without_place self.old.items place }
        ensures room { self.new.room + length self.new.items
            ≡ self.old.room + length self.old.items }
    {
        let Some(_) = self.links.get(place) else {
            return;
        };
        self.links.discard(place);
        self.links.unlink_and_free(place);
        self.len -= 1;
    }

    /// Takes out the first element. `None` if there is none.
    #[inline(always)]
    pub fn pop_front(&mut self) -> Option<LabelledValue<L, E>>
        ensures first { result ≡ first_element self.old.items }
        ensures taken { self.new.items ≡ behind_first self.old.items }
        ensures room { OnSome result (self.new.room ≡ self.old.room + 1) }
        ensures unchanged { IfNone result (self.new ≡ self.old) }
    {
        let element = self.links.take_first()?;
        self.len -= 1;
        Some(element)
    }

    /// Drops all elements; what they took stays as room.
    pub fn clear(&mut self)
        ensures empty { self.new.items ≡ [] }
        ensures room { self.new.room ≡ self.old.room + length self.old.items }
    {
        if self.len > 0 {
            self.links.clear();
            self.len = 0;
        }
    }
}
