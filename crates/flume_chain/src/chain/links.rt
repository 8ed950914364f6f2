//! The nodes of a chain, each with the places before and after it.
ghost use Rattle.std.specs.Prelude.{◌≡◌, ◌≢◌, ◌<◌, ◌≤◌, Some, None, option_copied, IsSome};
ghost use Rattle.std.specs.Prelude.{IfOk, IfErr, OnErr, IfSome, IfNone, OnSome};
ghost use Rattle.std.specs.Borrow.{Lends, sem};
ghost use Rattle.std.specs.Vec.{vec_len, vec_capacity};
ghost use Rattle.flume_chain.specs.Links.{nil, with, next_at, previous_at, element_at};
ghost use Rattle.flume_chain.specs.Links.{HasNode, Linked, Same, Put, Full, links_with_value};
ghost use Rattle.flume_chain.specs.Links.{with_new_label};
ghost use Rattle.std.specs.Option.{option_map};

use super::node::{Node, occupied};
use crate::labelled::LabelledValue;
use std::alloc::Allocator;
use std::mem::{forget, replace};

/// The place that no element has: it is before the first and after the last.
pub(super) const NIL: u32 = u32::MAX;

#[derive(Drop)]
pub(super) struct Links<L, E, A: Allocator> {
    nodes: Vec<Node<L, E>, A>,
    first: u32,
    last: u32,
    free: u32,
}

impl<L: Drop, E: Drop, A: Allocator> Links<L, E, A> {
    ghost use Rattle.flume_chain.specs.contracts.chain.links.Links.{the_row};

    #[inline(always)]
    pub(super) fn new(alloc: A) -> Self
        ensures size { vec_len result.nodes ≡ 0 }
        ensures capacity { vec_capacity result.nodes ≡ 0 }
        ensures first { result.first ≡ nil }
        ensures last { result.last ≡ nil }
        ensures free { result.free ≡ nil }
    {
        Links {
            nodes: Vec::new(alloc),
            first: NIL,
            last: NIL,
            free: NIL,
        }
    }

    #[inline(always)]
    pub(super) fn capacity(&self) -> usize
        ensures capacity { result ≡ vec_capacity self.now.nodes }
    {
        self.nodes.capacity()
    }

    #[inline(always)]
    pub(super) fn allocator(&self) -> &A {
        self.nodes.allocator()
    }

    pub(super) fn clear(&mut self)
        ensures size { vec_len self.new.nodes ≡ 0 }
        ensures capacity { vec_capacity self.new.nodes ≡ vec_capacity self.old.nodes }
        ensures first { self.new.first ≡ nil }
        ensures last { self.new.last ≡ nil }
        ensures free { self.new.free ≡ nil }
    {
        self.nodes.clear();
        self.first = NIL;
        self.last = NIL;
        self.free = NIL;
    }

    #[inline(always)]
    pub(super) fn next(&self, place: u32) -> u32
        ensures next { result ≡ next_at self.now place }
    {
        if place == NIL {
            return self.first;
        }
        match self.nodes.get(place as usize) {
            Some(node) => node.next(),
            None => NIL,
        }
    }

    #[inline(always)]
    pub(super) fn previous(&self, place: u32) -> u32
        ensures previous { result ≡ previous_at self.now place }
    {
        if place == NIL {
            return self.last;
        }
        match self.nodes.get(place as usize) {
            Some(node) => node.previous(),
            None => NIL,
        }
    }

    #[inline(always)]
    pub(super) fn get(&self, place: u32) -> Option<&E>
        ensures value { option_copied result
            ≡ option_map (λ e. e.value) (element_at self.now place) }
    {
        self.nodes.get(place as usize)?.value()
    }

    #[inline(always)]
    pub(super) fn label(&self, place: u32) -> Option<&L>
        ensures label { option_copied result
            ≡ option_map (λ e. e.label) (element_at self.now place) }
    {
        self.nodes.get(place as usize)?.label()
    }

    #[inline(always)]
    pub(super) fn value_mut(&mut self, place: u32) -> &mut E
        requires occupied { IsSome (element_at self.old place) }
        ensures* writes_back { sem 𝓛 (Lends (the_row L.row E.row A.row A.Allocator) E.row self.entry
            result (links_with_value self.old place)) }
        ensures value { option_map (λ e. e.value) (element_at self.old place) ≡ Some result.now }
    {
        self.nodes[place as usize].value_mut()
    }

    #[inline(always)]
    pub(super) fn set_label(&mut self, place: u32, label: L)
        ensures written { Linked self.old self.new (next_at self.old) (previous_at self.old)
            (with (element_at self.old) place
            (option_map (with_new_label label) (element_at self.old place))) self.old.free }
    {
        if let Some(node) = self.nodes.get_mut(place as usize) {
            node.set_label(label);
        }
    }

    #[inline(always)]
    pub(super) fn take(&mut self, place: u32) -> Option<LabelledValue<L, E>>
        ensures element { result ≡ element_at self.old place }
        ensures taken { Linked self.old self.new (next_at self.old) (previous_at self.old)
            (with (element_at self.old) place None) self.old.free }
    {
        let node = self.nodes.get_mut(place as usize)?;
        node.take()
    }

    #[inline(always)]
    pub(super) fn discard(&mut self, place: u32)
        ensures discarded { Linked self.old self.new (next_at self.old) (previous_at self.old)
            (with (element_at self.old) place None) self.old.free }
    {
        if let Some(node) = self.nodes.get_mut(place as usize) {
            node.discard();
        }
    }

    #[inline(always)]
    fn set_next(&mut self, place: u32, next: u32)
        requires occupied { HasNode self.old place }
        requires fits { vec_len self.old.nodes ≤ nil }
        ensures written { Linked self.old self.new (with (next_at self.old) place next)
            (previous_at self.old) (element_at self.old) self.old.free }
    {
        if place == NIL {
            self.first = next;
            return;
        }
        self.nodes[place as usize].set_next(next);
    }

    #[inline(always)]
    fn set_previous(&mut self, place: u32, previous: u32)
        requires occupied { HasNode self.old place }
        requires fits { vec_len self.old.nodes ≤ nil }
        ensures written { Linked self.old self.new (next_at self.old)
            (with (previous_at self.old) place previous) (element_at self.old) self.old.free }
    {
        if place == NIL {
            self.last = previous;
            return;
        }
        self.nodes[place as usize].set_previous(previous);
    }

    #[inline(always)]
    fn put(
        &mut self,
        element: LabelledValue<L, E>,
        previous: u32,
        next: u32,
    ) -> Result<u32, LabelledValue<L, E>>
        requires free { HasNode self.old self.old.free }
        requires fits { vec_len self.old.nodes ≤ nil }
        ensures put { IfOk result (λ place. Put self.old self.new place
            (with (next_at self.old) place next) (with (previous_at self.old) place previous)
            (with (element_at self.old) place (Some element))) }
        ensures full { OnErr result (Full self.old) }
        ensures returned { IfErr result (λ back. back ≡ element) }
        ensures unchanged { OnErr result (Same self.old self.new) }
    {
        let place = self.free;
        if place != NIL {
            let node = &mut self.nodes[place as usize];
            self.free = node.next();
            // A free node holds nothing to drop.
            forget(replace(node, occupied(element, previous, next)));
            return Ok(place);
        }
        let place = self.nodes.len();
        if place >= NIL as usize {
            return Err(element);
        }
        if place == self.nodes.capacity() && self.nodes.reserve(1).is_err() {
            return Err(element);
        }
        self.nodes.push_reserved(occupied(element, previous, next));
        Ok(place as u32)
    }

    #[inline(always)]
    pub(super) fn link_before(
        &mut self,
        next: u32,
        element: LabelledValue<L, E>,
    ) -> Result<u32, LabelledValue<L, E>>
        requires free { HasNode self.old self.old.free }
        requires fits { vec_len self.old.nodes ≤ nil }
        requires next { HasNode self.old next }
        requires previous { HasNode self.old (previous_at self.old next) }
        ensures put { IfOk result (λ place. Put self.old self.new place
            (with (with (next_at self.old) place next) (previous_at self.old next) place)
            (with (with (previous_at self.old) place (previous_at self.old next)) next place)
            (with (element_at self.old) place (Some element))) }
        ensures full { OnErr result (Full self.old) }
        ensures returned { IfErr result (λ back. back ≡ element) }
        ensures unchanged { OnErr result (Same self.old self.new) }
    {
        let previous = self.previous(next);
        let place = self.put(element, previous, next)?;
        self.set_next(previous, place);
        self.set_previous(next, place);
        Ok(place)
    }

    #[inline(always)]
    pub(super) fn unlink(&mut self, place: u32)
        requires fits { vec_len self.old.nodes ≤ nil }
        requires next { HasNode self.old (next_at self.old place) }
        requires previous { HasNode self.old (previous_at self.old place) }
        ensures unlinked { Linked self.old self.new
            (with (next_at self.old) (previous_at self.old place) (next_at self.old place))
            (with (previous_at self.old) (next_at self.old place) (previous_at self.old place))
            (element_at self.old) self.old.free }
    {
        let previous = self.previous(place);
        let next = self.next(place);
        self.set_next(previous, next);
        self.set_previous(next, previous);
    }

    #[inline(always)]
    pub(super) fn unlink_and_free(&mut self, place: u32)
        requires place { place < vec_len self.old.nodes }
        requires fits { vec_len self.old.nodes ≤ nil }
        requires next { HasNode self.old (next_at self.old place) }
        requires previous { HasNode self.old (previous_at self.old place) }
        ensures linked { Linked self.old self.new
            (with (with (next_at self.old) (previous_at self.old place) (next_at self.old place))
            place self.old.free)
            (with (previous_at self.old) (next_at self.old place) (previous_at self.old place))
            (element_at self.old) place }
    {
        self.unlink(place);
        self.set_next(place, self.free);
        self.free = place;
    }

    #[inline(always)]
    pub(super) fn link_last(&mut self, place: u32)
        requires place { place < vec_len self.old.nodes }
        requires fits { vec_len self.old.nodes ≤ nil }
        requires last { HasNode self.old self.old.last }
        ensures linked { Linked self.old self.new
            (with (with (next_at self.old) place nil) self.old.last place)
            (with (with (previous_at self.old) place self.old.last) nil place)
            (element_at self.old) self.old.free }
    {
        let last = self.last;
        self.set_next(place, NIL);
        self.set_next(last, place);
        self.set_previous(place, last);
        self.last = place;
    }

    #[inline(always)]
    pub(super) fn take_first(&mut self) -> Option<LabelledValue<L, E>>
        requires first { HasNode self.old self.old.first }
        requires fits { vec_len self.old.nodes ≤ nil }
        requires next { self.old.first ≢ nil → HasNode self.old (next_at self.old self.old.first) }
        requires element { self.old.first ≢ nil → IsSome (element_at self.old self.old.first) }
        ensures none { IfNone result (self.old.first ≡ nil) }
        ensures some { OnSome result (self.old.first ≢ nil) }
        ensures element { IfSome result (λ e. element_at self.old self.old.first ≡ Some e) }
        ensures taken { OnSome result (Linked self.old self.new
            (with (with (next_at self.old) nil (next_at self.old self.old.first))
            self.old.first self.old.free)
            (with (previous_at self.old) (next_at self.old self.old.first) nil)
            (with (element_at self.old) self.old.first None) self.old.first) }
        ensures unchanged { IfNone result (Same self.old self.new) }
    {
        let place = self.first;
        if place == NIL {
            return None;
        }
        let node = &mut self.nodes[place as usize];
        let element = node.take_element();
        let next = node.next();
        node.set_next(self.free);
        self.free = place;
        self.first = next;
        self.set_previous(next, NIL);
        Some(element)
    }
}
