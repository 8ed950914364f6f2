//! The calls of a channel, between the steps of `flume_core` and the ends of `flume`. A call is a
//! small state machine. Each *turn* of it makes one step of the channel, or several with nothing
//! between them. The caller takes the lock, parks the thread and reads the clock.
//! ```
//! let mut locked: Locked<u64, u64, Global> = Locked::new(alloc, Some(1));
//! locked.make(FirstSend { message: 7 }, &mut bell);      // Done(Ok(()))
//! locked.make(FirstSend { message: 8 }, &mut bell);      // NeedSignal(8): it is full
//! locked.make(FirstReceive, &mut bell);                  // Done(Ok(7))
//! ```
//! The loops of `gates` may wait; that they return isn't proved. If a comment says *doesn't
//! allocate*, it is as in `flume_core`, of the step that the turn makes.
#![tactic(auto)]

pub mod calls;
pub mod description;
pub mod due;
pub mod gates;
pub mod locked;
pub mod polled;
pub mod single;
pub mod turn;
