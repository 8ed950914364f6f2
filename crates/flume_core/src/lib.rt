//! A channel as a value, without a lock, on which the ends of `flume` are built. Each method of
//! `chan::Chan` is one *step*. None waits: a send that finds the channel full is blocked under a
//! *ticket*, a receive that finds it empty is parked under one, and its owner asks later.
//! ```
//! let mut chan: Chan<u64, u32> = Chan::new(alloc, Some(1));
//! chan.try_send(1);                  // Sent { filled: None }
//! chan.send(2, 10);                  // Pending(1): it is full, and 10 is the signal of ticket 1
//! chan.try_recv();                   // Got(1): now the message 2 has room
//! chan.next_due();                   // Some(1): the owner of ticket 1 is to be notified
//! chan.poll_send(1, None);           // Accepted
//! ```
//! The module `chan` also has the types of steps and replies: `Step`, `Kind` and `Reply`.
//! The contract of each step says which reply comes when, what the state is then, and whose ticket
//! becomes due. The clause `throughout` of `run::run` is the theorem of the repository.
//!
//! No clause counts allocations. A step that *doesn't allocate* is proved never to be refused
//! (`possible_reply`). Scripts play it while all memory is refused: docs/FAULTS.md names them.
#![tactic(auto)]

pub mod chan;
pub mod facts;
pub mod run;

pub use flume_error::error;
pub use flume_model::step;
