//! The place of each ticket, by which its element is found.
ghost use Rattle.std.specs.Prelude.{◌≡◌, None, OnOk, OnErr, OnSome};
ghost use Rattle.std.specs.FinMap.{empty, get, insert, remove};

mod ticket_hash;
mod ticket_table;

use std::alloc::{AllocError, Allocator};
use std::marker::Model;
use ticket_table::TicketTable;

/// The place of each of some tickets. Only `insert` can be refused memory.
#[derive(Drop)]
pub struct Places<A: Allocator> {
    // A ticket that was alone when it came: so one that comes by itself needs no table.
    lone: Option<(u64, u32)>,
    table: TicketTable<A>,
}

impl<A: Allocator> Model for Places<A> {
    ghost use Rattle.std.specs.Coded.{coded_ℕ};
    ghost use Rattle.std.specs.FinMap.{code};
    ghost use Rattle.flume_state.specs.layout.Places.{PlaceMap, with_lone, IsApart};

    ghost Value = { PlaceMap };

    ghost coded = { code coded_ℕ coded_ℕ };

    ghost view = { λ s. with_lone s.lone s.table };

    ghost invariant = { λ s. IsApart s.lone s.table };
}

impl<A: Allocator + Copy> Places<A> {
    /// No ticket has a place.
    /// ```
    /// let mut places = Places::new(alloc);
    /// let _ = places.insert(7, 2);       // Ok(())
    /// let _ = places.insert(7, 5);       // Err(AllocError)
    /// places.get(7);                     // Some(2)
    /// places.remove(7);
    /// places.get(7);                     // None
    /// ```
    #[inline(always)]
    pub(crate) fn new(alloc: A) -> Self
        ensures empty { result ≡ empty }
    {
        Places {
            lone: None,
            table: TicketTable::new(alloc),
        }
    }

    /// The place of this ticket, if it needs no table.
    #[inline(always)]
    pub(crate) fn lone(&self, ticket: u64) -> Option<u32>
        ensures place { OnSome result (result ≡ get self.now ticket) }
    {
        match &self.lone {
            Some(lone) if lone.0 == ticket => Some(lone.1),
            _ => None,
        }
    }

    #[inline(always)]
    pub(crate) fn get(&self, ticket: u64) -> Option<u32>
        ensures place { result ≡ get self.now ticket }
    {
        match &self.lone {
            Some(lone) if lone.0 == ticket => Some(lone.1),
            _ => self.table.get(ticket),
        }
    }

    /// Gives `ticket` a place. If it has one, or memory runs out, nothing changes.
    #[inline(always)]
    pub(crate) fn insert(&mut self, ticket: u64, place: u32) -> Result<(), AllocError>
        ensures inserted { OnOk result (self.new ≡ insert self.old ticket place) }
        ensures absent { OnOk result (get self.old ticket ≡ None) }
        ensures unchanged { OnErr result (self.new ≡ self.old) }
    {
        match &self.lone {
            None if self.table.is_empty() => self.lone = Some((ticket, place)),
            Some(lone) if lone.0 == ticket => return Err(AllocError),
            _ => return self.table.insert(ticket, place),
        }
        Ok(())
    }

    #[inline(always)]
    pub(crate) fn remove(&mut self, ticket: u64)
        ensures removed { self.new ≡ remove self.old ticket }
    {
        match &self.lone {
            Some(lone) if lone.0 == ticket => self.lone = None,
            _ => self.table.remove(ticket),
        }
    }

    pub(crate) fn clear(&mut self)
        ensures empty { self.new ≡ empty }
    {
        self.lone = None;
        self.table.clear();
    }
}
