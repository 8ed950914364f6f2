//! The errors of the receives.
ghost use Rattle.std.specs.Prelude.{◌≡◌, Some};
ghost use Rattle.std.specs.Fmt.{styled_text};
ghost use Rattle.flume_error.specs.Messages.{as_try_receive, as_receive_timeout};
ghost use Rattle.flume_error.specs.Texts.{receive_text, try_receive_text, receive_timeout_text};

use std::error::Error;
use std::fmt;

/// A receive gave no message.
#[derive(Clone, Copy, Debug, PartialEq, Eq, Drop)]
pub enum RecvError {
    /// The channel is closed, and no message is left.
    Disconnected,
    /// The receive had to wait, and there was no memory for that.
    NoMemory,
}

/// A receive that doesn't wait gave no message. `Disconnected` is as in `RecvError`.
#[derive(Clone, Copy, Debug, PartialEq, Eq, Drop)]
pub enum TryRecvError {
    /// No message is queued, and the channel isn't closed: one may still come.
    Empty,
    Disconnected,
    /// The list of a `try_recv_many` can't grow. A `try_recv` never answers it.
    NoMemory,
}

/// A receive up to a deadline gave no message. But for `Timeout`, the cases are `RecvError`'s.
#[derive(Clone, Copy, Debug, PartialEq, Eq, Drop)]
pub enum RecvTimeoutError {
    /// The deadline was reached, and no message came.
    Timeout,
    Disconnected,
    NoMemory,
}

impl From<RecvError> for TryRecvError {
    ghost from_gives = { λ error result. result ≡ as_try_receive error };

    fn from(error: RecvError) -> TryRecvError {
        match error {
            RecvError::Disconnected => TryRecvError::Disconnected,
            RecvError::NoMemory => TryRecvError::NoMemory,
        }
    }
}

impl From<RecvError> for RecvTimeoutError {
    ghost from_gives = { λ error result. result ≡ as_receive_timeout error };

    fn from(error: RecvError) -> RecvTimeoutError {
        match error {
            RecvError::Disconnected => RecvTimeoutError::Disconnected,
            RecvError::NoMemory => RecvTimeoutError::NoMemory,
        }
    }
}

impl RecvError {
    pub(crate) fn text(&self) -> &'static str
        ensures text { result.now ≡ receive_text self.now }
    {
        match self {
            RecvError::Disconnected => "receiving on a closed channel",
            RecvError::NoMemory => "out of memory",
        }
    }
}

impl fmt::Display for RecvError {
    ghost output = { λ e. Some (receive_text e) };

    ghost styled_output = { λ e spec. Some (styled_text spec (receive_text e)) };

    fn fmt<W: fmt::Write>(&self, f: &mut fmt::Formatter<W>) -> fmt::Result {
        f.pad(self.text())
    }
}

impl TryRecvError {
    pub(crate) fn text(&self) -> &'static str
        ensures text { result.now ≡ try_receive_text self.now }
    {
        match self {
            TryRecvError::Empty => "receiving on an empty channel",
            TryRecvError::Disconnected => "channel is empty and closed",
            TryRecvError::NoMemory => "out of memory",
        }
    }
}

impl fmt::Display for TryRecvError {
    ghost output = { λ e. Some (try_receive_text e) };

    ghost styled_output = { λ e spec. Some (styled_text spec (try_receive_text e)) };

    fn fmt<W: fmt::Write>(&self, f: &mut fmt::Formatter<W>) -> fmt::Result {
        f.pad(self.text())
    }
}

impl RecvTimeoutError {
    pub(crate) fn text(&self) -> &'static str
        ensures text { result.now ≡ receive_timeout_text self.now }
    {
        match self {
            RecvTimeoutError::Timeout => "timed out waiting on a channel",
            RecvTimeoutError::Disconnected => "channel is empty and closed",
            RecvTimeoutError::NoMemory => "out of memory",
        }
    }
}

impl fmt::Display for RecvTimeoutError {
    ghost output = { λ e. Some (receive_timeout_text e) };

    ghost styled_output = { λ e spec. Some (styled_text spec (receive_timeout_text e)) };

    fn fmt<W: fmt::Write>(&self, f: &mut fmt::Formatter<W>) -> fmt::Result {
        f.pad(self.text())
    }
}

impl Error for RecvError {}

impl Error for TryRecvError {}

impl Error for RecvTimeoutError {}
