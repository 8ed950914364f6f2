//! Records the calls of threads on a channel: when each began and returned, and its answer.
//! ```
//! let recording = Recording::new(rt.alloc())?;
//! let (tx, rx) = flume::on(rt).bounded(1)?;
//! let mut recorder = recording.recorder()?;
//! let mut other = recording.recorder()?;
//! let thread = thread::spawn(&rt, move || {
//!     let _ = other.send(&tx, 7);
//!     other
//! })?;
//! assert_eq!(rt; recorder.recv(&rx), Ok(7));
//! let recorders = vec![in rt.alloc(); recorder, thread.join(&rt)]?;
//! let events = recording.events(recorders)?;
//! let text = write_recording(rt.alloc(), Some(1), events.as_slice())?;
//! ```
//!
//! A call takes the next number of a shared counter just before it begins, and another one just
//! after it has returned, so that each of its steps lies between the two. A recorder takes no lock.
//! If an allocation of it fails, the call is made, and the recorder isn't complete any more.
//!
//! A thread that makes a selection, a call of many messages, or uses an iterator, a stream or a
//! sink makes the recording wrong. `Sender::downgrade` makes no step, and isn't recorded.
#![tactic(auto)]

mod answers;
mod call_futures;
mod counters;
mod drains;
mod end;
mod ends;
pub mod laws;
mod queries;
mod receives;
mod recorder;
mod recording;
mod recording_error;
mod sends;
mod slot;
mod writing;

pub use call_futures::{CallFuture, FutureAnswer, RecordedFuture};
pub use drains::DrainedMessages;
pub use end::End;
pub use recorder::Recorder;
pub use recording::Recording;
pub use recording_error::RecordingError;
pub use writing::write_recording;
