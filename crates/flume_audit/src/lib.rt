//! A channel that records its history, since a lock hides what happened under it. Each user has a
//! *seat* with a *receipt* of each step; `close` answers whether history and receipts agree.
//! ```
//! let (audit, mut seats) = Audit::<u64, L, _>::new(rt, alloc, Blank::new(1), None, 1)?;
//! for seat in seats.iter_mut() {
//!     let _ = audit.step(seat, Step::TrySend(5));  // Ok(Sent { filled: None })
//!     let _ = audit.step(seat, Step::TryRecv);     // Ok(Got(5))
//! }
//! let (closed, book) = audit.close(seats);         // Settled
//! book.history().len();                            // 2
//! ```
//! By the ledger `L`, of the standard library, a seat is one audit's only. A `Book` has no lock.
#![tactic(auto)]

pub mod audit;
pub mod book;
pub mod closed;
pub mod differs;
pub mod laws;
pub mod receipt;
mod reply;
pub mod seat;
mod tally;
pub mod weigh;
