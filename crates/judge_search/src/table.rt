//! Remembers configurations: those of a level, or those from which a guess found nothing.
ghost use Rattle.std.specs.Prelude.{◌≡◌, ◌++◌, ◌∷◌, [], IsTrue};
ghost use Rattle.std.specs.List.{Contains};
ghost use Rattle.judge_search.specs.Search.{configuration_at};

use crate::configuration::{Configuration, OpenCall, ParkedReceive, Status};
use std::alloc::Allocator;
use std::collections::HashMap;
use std::hash::{BuildHasherDefault, FoldHasher};

/// A configuration before the event at this place.
#[derive(Drop)]
pub struct ConfigurationAt<A: Allocator> {
    pub configuration: Configuration<A>,
    pub place: usize,
}

/// A table by hashes, in which only the last configuration with some hash is found.
#[derive(Drop)]
pub struct ConfigurationTable<A: Allocator> {
    pub list: Vec<ConfigurationAt<A>, A>,
    by_hash: HashMap<u64, usize, BuildHasherDefault<FoldHasher>, A>,
}

impl<A: Allocator + Copy> ConfigurationTable<A> {
    /// An empty table.
    pub fn new(alloc: A) -> Self
        ensures none { result.list.items ≡ [] }
    {
        ConfigurationTable {
            list: Vec::new(alloc),
            by_hash: HashMap::new(alloc),
        }
    }

    /// Whether this configuration is found at this place.
    pub fn has(&self, configuration: &Configuration<A>, place: usize) -> bool
        ensures has { IsTrue result
            → Contains self.now.list.items (configuration_at place configuration.now) }
    {
        if self.list.is_empty() {
            return false;
        }
        match self.by_hash.get(&configuration.hash_at(place)) {
            Some(at) => self.is_at(*at, configuration, place),
            None => false,
        }
    }

    fn is_at(&self, at: usize, configuration: &Configuration<A>, place: usize) -> bool
        ensures has { IsTrue result
            → Contains self.now.list.items (configuration_at place configuration.now) }
    {
        match self.list.get(at) {
            Some(one) => one.place == place && one.configuration.is_same(configuration),
            None => false,
        }
    }

    /// `false`: an allocation failed.
    pub fn remember(&mut self, configuration: Configuration<A>, place: usize) -> bool
        ensures added { IsTrue result → self.new.list.items
            ≡ self.old.list.items ++ configuration_at place configuration ∷ [] }
    {
        let hash = configuration.hash_at(place);
        let at = self.list.len();
        self.list
            .push(ConfigurationAt {
                configuration,
                place,
            })
            .is_ok()
            && self.by_hash.insert(hash, at).is_ok()
    }
}

impl<A: Allocator + Copy> Configuration<A> {
    pub(crate) fn is_same(&self, other: &Configuration<A>) -> bool
        ensures same { IsTrue result → self.now ≡ other.now }
    {
        self.has_same_ends(other) && self.has_same_line(other) && self.has_same_calls(other)
    }

    fn has_same_ends(&self, other: &Configuration<A>) -> bool
        ensures capacity { IsTrue result → self.now.capacity ≡ other.now.capacity }
        ensures senders { IsTrue result → self.now.senders ≡ other.now.senders }
        ensures receivers { IsTrue result → self.now.receivers ≡ other.now.receivers }
    {
        self.capacity == other.capacity
            && self.senders == other.senders
            && self.receivers == other.receivers
    }

    fn has_same_line(&self, other: &Configuration<A>) -> bool
        ensures queue { IsTrue result → self.now.queue ≡ other.now.queue }
        ensures blocked { IsTrue result → self.now.blocked ≡ other.now.blocked }
    {
        self.queue == other.queue && self.blocked == other.blocked
    }

    fn has_same_calls(&self, other: &Configuration<A>) -> bool
        ensures calls { IsTrue result → self.now.calls ≡ other.now.calls }
        ensures receives { IsTrue result → self.now.receives ≡ other.now.receives }
    {
        are_same_calls(self.calls.as_slice(), other.calls.as_slice())
            && are_same_receives(self.receives.as_slice(), other.receives.as_slice())
    }

    fn hash_at(&self, place: usize) -> u64 {
        let hash = mixed(mixed(mixed(0, place), self.senders), self.receivers);
        let hash = match self.capacity {
            Some(capacity) => mixed(hash, capacity),
            None => hash,
        };
        let hash = with_places(mixed(hash, self.queue.len()), self.queue.as_slice());
        let hash = with_places(mixed(hash, self.blocked.len()), self.blocked.as_slice());
        let hash = with_calls(hash, self.calls.as_slice());
        with_receives(hash, self.receives.as_slice())
    }
}

fn are_same_calls(these: &[OpenCall], those: &[OpenCall]) -> bool
    ensures same { IsTrue result → these.now ≡ those.now }
{
    these == those
}

fn are_same_receives(these: &[ParkedReceive], those: &[ParkedReceive]) -> bool
    ensures same { IsTrue result → these.now ≡ those.now }
{
    these == those
}

fn mixed(hash: u64, next: usize) -> u64 {
    let product = (hash ^ next as u64).wrapping_mul(0x9E37_79B9_7F4A_7C15);
    product ^ (product >> 32)
}

fn with_places(hash: u64, places: &[usize]) -> u64 {
    places.iter().fold(hash, |hash, place| mixed(hash, *place))
}

fn with_calls(hash: u64, calls: &[OpenCall]) -> u64 {
    calls.iter().fold(hash, |hash, call| {
        mixed(mixed(hash, call.place), call.progress as usize)
    })
}

fn with_receives(hash: u64, receives: &[ParkedReceive]) -> u64 {
    receives.iter().fold(hash, |hash, receive| {
        let hash = mixed(mixed(hash, receive.place), receive.kind as usize);
        match receive.status {
            Status::Waiting => mixed(hash, 0),
            Status::Woken => mixed(hash, 1),
            Status::Filled(place) => mixed(mixed(hash, 2), place),
        }
    })
}
