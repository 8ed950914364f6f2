//! A channel with a trace that isn't opened yet.
ghost use Rattle.std.specs.Prelude.{◌≡◌, Some, None};

use flume_trace::UnopenedTrace;
use std::marker::Model;
use std::sync::ledger;

/// A channel with a trace that isn't opened yet: its capacity, and how many parts its parties have.
/// Contracts see a `ChannelIdentity`, which no other channel of the program has.
#[derive(Drop)]
pub struct UnopenedChannel {
    pub(crate) trace: UnopenedTrace,
    pub(crate) parts: ledger::Blank,
    pub(crate) capacity: Option<usize>,
}

impl Model for UnopenedChannel {
    ghost use Rattle.flume_keeper.specs.Identities.{ChannelIdentity};

    ghost Value = { ChannelIdentity };

    ghost view = { λ channel. record {
      trace_name = channel.trace.trace_name;
      positions_name = channel.trace.positions_name;
      parts_name = channel.parts.name;
      parts = channel.parts.parts;
      capacity = channel.capacity;
    } };
}

impl UnopenedChannel {
    /// One of this capacity, for parties of so many parts in all.
    pub fn bounded(capacity: usize, parts: u64) -> Self
        ensures capacity { result.capacity ≡ Some capacity }
        ensures parts { result.parts ≡ parts }
    {
        UnopenedChannel::new(Some(capacity), parts)
    }

    /// One that is unbounded, for parties of so many parts in all.
    pub fn unbounded(parts: u64) -> Self
        ensures capacity { result.capacity ≡ None }
        ensures parts { result.parts ≡ parts }
    {
        UnopenedChannel::new(None, parts)
    }

    fn new(capacity: Option<usize>, parts: u64) -> Self
        ensures capacity { result.capacity ≡ capacity }
        ensures parts { result.parts ≡ parts }
    {
        UnopenedChannel {
            trace: UnopenedTrace::new(),
            parts: ledger::Blank::new(parts),
            capacity,
        }
    }

    /// Its capacity; `None` if it is unbounded.
    pub fn capacity(&self) -> Option<usize>
        ensures capacity { result ≡ self.now.capacity }
    {
        self.capacity
    }
}
