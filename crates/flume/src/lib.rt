//! Channels between threads and tasks: flume 0.12.0, written again with contracts that are proved.
//! Messages come out in the order in which they went in, each at one receiver. Ends can be cloned.
//! ```
//! let (tx, rx) = flume::on(rt).unbounded()?;
//! tx.send(42)?;
//! assert_eq!(rt; rx.recv(), Ok(42));
//! ```
//! `rt` is the runtime value that `main` is handed. If an allocation fails, a call answers
//! `NoMemory`: nothing aborts. A channel of `unbounded` is never full. If one of `bounded(n)` has
//! `n` queued messages and no receiver waits, `send` waits, and `try_send` hands its message back.
//! ```
//! let (tx, _rx) = flume::on(rt).bounded(1)?;
//! assert_eq!(rt; tx.try_send(1), Ok(()));
//! assert_eq!(rt; tx.try_send(2), Err(TrySendError::Full(2)));
//! ```
//! On a rendezvous, `bounded(0)`, `send` waits until a receiver takes its message.
//! ```
//! let (tx, rx) = flume::on(rt).bounded(0)?;
//! let sender = thread::spawn(&rt, move || tx.send(2))?;
//! assert_eq!(rt; rx.recv(), Ok(2));
//! assert_eq!(rt; sender.join(&rt), Ok(()));
//! ```
//! After the last sender is dropped, receivers still get the queued messages, and then
//! `Disconnected`. After the last receiver is dropped, a send answers `Disconnected`.
//! ```
//! let (tx, rx) = flume::on(rt).unbounded()?;
//! tx.send(7)?;
//! drop(tx);
//! assert_eq!(rt; rx.recv(), Ok(7));
//! assert_eq!(rt; rx.recv(), Err(RecvError::Disconnected));
//! ```
//! Tasks and threads may share a channel. The executors of the crate `futures` run these:
//! ```
//! let (tx, rx) = flume::on(rt).unbounded()?;
//! assert_eq!(rt; block_on(&rt, tx.send_async(42))?, Ok(()));
//! assert_eq!(rt; block_on(&rt, rx.recv_async())?, Ok(42));
//! ```
//! A `Selector` waits for the first of several sends and receives, on channels of any types.
//! ```
//! let (jobs, work) = flume::on(rt).unbounded::<u64>()?;
//! let (stop, stopped) = flume::on(rt).bounded::<()>(1)?;
//! jobs.send(7)?;
//! let job = Selector::new().recv(&stopped, |_| None).recv(&work, Result::ok);
//! assert_eq!(rt; job.wait()?, Some(7));
//! ```
//! A call that takes the channel's lock may wait. That it returns isn't proved. If a comment says
//! *doesn't allocate*, tests play the call while all memory is refused; no clause says it. The
//! *same channel* is one of the same number, since a contract sees of an end nothing else.
//!
//! The repository's docs/USING.md has more recipes, its README.md says what is proved.
#![tactic(auto)]

mod answers;
mod backoff;
mod bodies;
mod builder;
mod deadline_iter;
mod drain;
mod gate;
mod into_iter;
mod iterators;
mod opening;
pub mod polled;
mod progress;
mod receive_many;
mod receiver;
mod runtime;
pub mod select;
mod send_many;
mod sender;
mod shared;
pub mod signal;
mod single;
mod task;
pub mod traced;
mod watching;
mod weak;

pub use builder::{Builder, on};
pub use deadline_iter::DeadlineIter;
pub use drain::Drain;
pub use flume_audit::{audit, book, closed, differs, receipt, seat, weigh};
pub use flume_calls::description::Description;
pub use flume_calls::{calls, due, gates};
pub use flume_core::error::{
    CapacityError, RecvError, RecvTimeoutError, SelectError, SendError, SendTimeoutError,
    TryRecvError, TrySendError,
};
pub use flume_core::{chan, error, facts, run, step};
pub use flume_history::check::{Checked, check_history};
pub use flume_script::{Script, ScriptOutput, run_script};
pub use into_iter::IntoIter;
pub use iterators::{Iter, TryIter};
pub use opening::{bounded, unbounded};
pub use receiver::Receiver;
pub use runtime::Runtime;
pub use select::Selector;
pub use sender::Sender;
pub use shared::Waits;
pub use watching::watch;
pub use weak::WeakSender;
