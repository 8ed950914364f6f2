//! The errors of the channel. A failed send gives its message back in the error.
ghost use Rattle.std.specs.Prelude.{◌≡◌, Some};
ghost use Rattle.std.specs.Fmt.{styled_text};
ghost use Rattle.flume_error.specs.Texts.{no_memory_text, select_text};

pub mod capacity;
pub mod conversions;
pub mod receive;
pub mod send;

pub use capacity::CapacityError;
pub use receive::{RecvError, RecvTimeoutError, TryRecvError};
pub use send::{SendError, SendTimeoutError, TrySendError};
use std::alloc::AllocError;
use std::error::Error;
use std::fmt;

/// Out of memory: the error of a call that fails in no other way and has no message to give back.
#[derive(Clone, Copy, Debug, PartialEq, Eq)]
pub struct NoMemory;

impl NoMemory {
    pub(crate) fn text() -> &'static str
        ensures text { result.now ≡ no_memory_text }
    {
        "out of memory"
    }
}

impl fmt::Display for NoMemory {
    ghost output = { λ _. Some no_memory_text };

    ghost styled_output = { λ _ spec. Some (styled_text spec no_memory_text) };

    fn fmt<W: fmt::Write>(&self, f: &mut fmt::Formatter<W>) -> fmt::Result {
        f.pad(NoMemory::text())
    }
}

impl Error for NoMemory {}

impl From<AllocError> for NoMemory {
    fn from(_refused: AllocError) -> NoMemory {
        NoMemory
    }
}

/// A selector completed no arm.
#[derive(Clone, Copy, Debug, PartialEq, Eq, Drop)]
pub enum SelectError {
    /// The deadline was reached, and no arm was ready.
    Timeout,
    NoMemory,
}

impl SelectError {
    pub(crate) fn text(&self) -> &'static str
        ensures text { result.now ≡ select_text self.now }
    {
        match self {
            SelectError::Timeout => "timeout occurred",
            SelectError::NoMemory => "out of memory",
        }
    }
}

impl fmt::Display for SelectError {
    ghost output = { λ e. Some (select_text e) };

    ghost styled_output = { λ e spec. Some (styled_text spec (select_text e)) };

    fn fmt<W: fmt::Write>(&self, f: &mut fmt::Formatter<W>) -> fmt::Result {
        f.pad(self.text())
    }
}

impl Error for SelectError {}
