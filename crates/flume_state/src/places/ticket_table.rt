//! The places of tickets in a hash table, which is made when the first of them comes.
ghost use Rattle.std.specs.Prelude.{◌≡◌, ◌↔◌, true, None, OnOk, OnErr};
ghost use Rattle.std.specs.FinMap.{empty, get, insert, remove};
ghost use Rattle.flume_state.specs.layout.Places.{places_in};

use crate::places::ticket_hash::TicketHasher;
use std::alloc::{AllocError, Allocator};
use std::collections::HashMap;
use std::hash::BuildHasherDefault;
use std::marker::Model;

type Table<A> = HashMap<u64, u32, BuildHasherDefault<TicketHasher>, A>;

/// The table is boxed: most channels have none, and in place it takes some 85 bytes more.
#[derive(Drop)]
pub(super) struct TicketTable<A: Allocator> {
    table: Option<Box<Table<A>, A>>,
    alloc: A,
}

impl<A: Allocator> Model for TicketTable<A> {
    ghost use Rattle.std.specs.Coded.{coded_ℕ};
    ghost use Rattle.std.specs.FinMap.{code, empty};
    ghost use Rattle.std.specs.Option.{option_map_or};
    ghost use Rattle.flume_state.specs.layout.Places.{PlaceMap, places_in};

    ghost Value = { PlaceMap };

    ghost coded = { code coded_ℕ coded_ℕ };

    ghost view = { λ a. option_map_or (λ b. places_in b.value.entries) a.table empty };
}

impl<A: Allocator + Copy> TicketTable<A> {
    /// No ticket has a place.
    /// ```
    /// let mut places = TicketTable::new(alloc);
    /// let _ = places.insert(7, 2);       // Ok(())
    /// places.get(7);                     // Some(2)
    /// places.is_empty();                 // false
    /// ```
    #[inline(always)]
    pub(super) fn new(alloc: A) -> Self
        ensures empty { result ≡ empty }
    {
        TicketTable { table: None, alloc }
    }

    #[inline(always)]
    pub(super) fn is_empty(&self) -> bool
        ensures empty { result ≡ true ↔ self.now ≡ empty }
    {
        match &self.table {
            Some(table) => table.is_empty(),
            None => true,
        }
    }

    #[tactic(auto, using(crate::proofs::TableLemmas::nothing_found))]
    #[inline(always)]
    pub(super) fn get(&self, ticket: u64) -> Option<u32>
        ensures place { result ≡ get self.now ticket }
    {
        match &self.table {
            Some(table) => place_in(table, ticket),
            None => None,
        }
    }

    #[tactic(auto, using(crate::proofs::TableLemmas::nothing_found))]
    #[inline(never)]
    pub(super) fn insert(&mut self, ticket: u64, place: u32) -> Result<(), AllocError>
        ensures inserted { OnOk result (self.new ≡ insert self.old ticket place) }
        ensures absent { OnOk result (get self.old ticket ≡ None) }
        ensures unchanged { OnErr result (self.new ≡ self.old) }
    {
        if let Some(table) = &mut self.table {
            return insert_in(table, ticket, place);
        }
        let mut table = HashMap::with_hasher(self.alloc, BuildHasherDefault::new());
        insert_in(&mut table, ticket, place)?;
        match Box::new(self.alloc, table) {
            Ok(table) => self.table = Some(table),
            Err(_) => return Err(AllocError),
        }
        Ok(())
    }

    #[tactic(auto, using(crate::proofs::TableLemmas::nothing_removed))]
    #[inline(always)]
    pub(super) fn remove(&mut self, ticket: u64)
        ensures removed { self.new ≡ remove self.old ticket }
    {
        if let Some(table) = &mut self.table {
            remove_from(table, ticket);
        }
    }

    pub(super) fn clear(&mut self)
        ensures empty { self.new ≡ empty }
    {
        if let Some(table) = &mut self.table {
            table.clear();
        }
    }
}

#[tactic(auto, using(crate::proofs::TableLemmas::get_of_table))]
#[inline(never)]
fn place_in<A: Allocator + Copy>(table: &Table<A>, ticket: u64) -> Option<u32>
    ensures place { result ≡ get (places_in table.now.entries) ticket }
{
    table.get(&ticket).copied()
}

#[tactic(auto, using(crate::proofs::TableLemmas::inserts))]
#[inline(never)]
fn insert_in<A: Allocator + Copy>(
    table: &mut Table<A>,
    ticket: u64,
    place: u32,
) -> Result<(), AllocError>
    ensures inserted { OnOk result
        (places_in table.new.entries ≡ insert (places_in table.old.entries) ticket place) }
    ensures absent { OnOk result (get (places_in table.old.entries) ticket ≡ None) }
    ensures unchanged { OnErr result
        (places_in table.new.entries ≡ places_in table.old.entries) }
{
    if let Some(old) = table.insert(ticket, place)? {
        let _ = table.insert(ticket, old);
        return Err(AllocError);
    }
    Ok(())
}

#[tactic(auto, using(crate::proofs::TableLemmas::removed))]
#[inline(never)]
fn remove_from<A: Allocator + Copy>(table: &mut Table<A>, ticket: u64)
    ensures removed { places_in table.new.entries ≡ remove (places_in table.old.entries) ticket }
{
    table.remove(&ticket);
}
