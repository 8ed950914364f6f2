//! The errors of the sends. Each holds the message that wasn't sent.
ghost use Rattle.std.specs.Prelude.{◌≡◌, Some, codes};
ghost use Rattle.std.specs.Fmt.{styled_text};
ghost use Rattle.flume_error.specs.Messages.{send_message, try_send_message, send_timeout_message};
ghost use Rattle.flume_error.specs.Messages.{as_try_send, as_send_timeout};
ghost use Rattle.flume_error.specs.Texts.{send_text, try_send_text, send_timeout_text};
ghost use Rattle.flume_error.specs.Texts.{try_send_debug_text};

use std::error::Error;
use std::fmt;

/// A send gave its message back.
#[derive(Clone, Copy, PartialEq, Eq, Drop)]
pub enum SendError<T> {
    /// The channel is closed.
    Disconnected(T),
    /// Out of memory, to queue the message or to wait.
    NoMemory(T),
}

/// A send that doesn't wait gave its message back. But for `Full`, the cases are `SendError`'s.
#[derive(Clone, Copy, PartialEq, Eq, Drop)]
pub enum TrySendError<T> {
    /// The channel is full, and isn't closed: the message may be taken in later.
    Full(T),
    Disconnected(T),
    NoMemory(T),
}

/// A send up to a deadline gave its message back. But for `Timeout`, the cases are `SendError`'s.
#[derive(Clone, Copy, PartialEq, Eq, Drop)]
pub enum SendTimeoutError<T> {
    /// The deadline was reached, and the message wasn't taken in.
    Timeout(T),
    Disconnected(T),
    NoMemory(T),
}

impl<T> SendError<T> {
    /// The message that wasn't sent, whatever the reason.
    /// ```
    /// SendError::Disconnected(7).into_inner(); // 7
    /// ```
    pub fn into_inner(self) -> T
        ensures { result ≡ send_message self }
    {
        match self {
            SendError::Disconnected(message) => message,
            SendError::NoMemory(message) => message,
        }
    }

    pub(crate) fn text(&self) -> &'static str
        ensures text { result.now ≡ send_text self.now }
    {
        match self {
            SendError::Disconnected(_) => "sending on a closed channel",
            SendError::NoMemory(_) => "out of memory",
        }
    }
}

impl<T> TrySendError<T> {
    /// The message that wasn't sent, whatever the reason.
    /// ```
    /// TrySendError::Full(7).into_inner(); // 7
    /// ```
    pub fn into_inner(self) -> T
        ensures { result ≡ try_send_message self }
    {
        match self {
            TrySendError::Full(message) => message,
            TrySendError::Disconnected(message) => message,
            TrySendError::NoMemory(message) => message,
        }
    }

    pub(crate) fn text(&self) -> &'static str
        ensures text { result.now ≡ try_send_text self.now }
    {
        match self {
            TrySendError::Full(_) => "sending on a full channel",
            TrySendError::Disconnected(_) => "sending on a closed channel",
            TrySendError::NoMemory(_) => "out of memory",
        }
    }
}

impl<T> SendTimeoutError<T> {
    /// The message that wasn't sent, whatever the reason.
    /// ```
    /// SendTimeoutError::Timeout(7).into_inner(); // 7
    /// ```
    pub fn into_inner(self) -> T
        ensures { result ≡ send_timeout_message self }
    {
        match self {
            SendTimeoutError::Timeout(message) => message,
            SendTimeoutError::Disconnected(message) => message,
            SendTimeoutError::NoMemory(message) => message,
        }
    }

    pub(crate) fn text(&self) -> &'static str
        ensures text { result.now ≡ send_timeout_text self.now }
    {
        match self {
            SendTimeoutError::Timeout(_) => "timed out sending on a full channel",
            SendTimeoutError::Disconnected(_) => "sending on a closed channel",
            SendTimeoutError::NoMemory(_) => "out of memory",
        }
    }
}

impl<T> From<SendError<T>> for TrySendError<T> {
    ghost from_gives = { λ error result. result ≡ as_try_send error };

    fn from(error: SendError<T>) -> TrySendError<T> {
        match error {
            SendError::Disconnected(message) => TrySendError::Disconnected(message),
            SendError::NoMemory(message) => TrySendError::NoMemory(message),
        }
    }
}

impl<T> From<SendError<T>> for SendTimeoutError<T> {
    ghost from_gives = { λ error result. result ≡ as_send_timeout error };

    fn from(error: SendError<T>) -> SendTimeoutError<T> {
        match error {
            SendError::Disconnected(message) => SendTimeoutError::Disconnected(message),
            SendError::NoMemory(message) => SendTimeoutError::NoMemory(message),
        }
    }
}

impl<T> fmt::Display for SendError<T> {
    ghost output = { λ e. Some (send_text e) };

    ghost styled_output = { λ e spec. Some (styled_text spec (send_text e)) };

    fn fmt<W: fmt::Write>(&self, f: &mut fmt::Formatter<W>) -> fmt::Result {
        f.pad(self.text())
    }
}

impl<T> fmt::Display for TrySendError<T> {
    ghost output = { λ e. Some (try_send_text e) };

    ghost styled_output = { λ e spec. Some (styled_text spec (try_send_text e)) };

    fn fmt<W: fmt::Write>(&self, f: &mut fmt::Formatter<W>) -> fmt::Result {
        f.pad(self.text())
    }
}

impl<T> fmt::Display for SendTimeoutError<T> {
    ghost output = { λ e. Some (send_timeout_text e) };

    ghost styled_output = { λ e spec. Some (styled_text spec (send_timeout_text e)) };

    fn fmt<W: fmt::Write>(&self, f: &mut fmt::Formatter<W>) -> fmt::Result {
        f.pad(self.text())
    }
}

/// Not derived: the message needn't be `Debug`.
impl<T> fmt::Debug for SendError<T> {
    ghost debug_output = { λ _. Some (codes "\"SendError(..)\"") };

    fn fmt<W: fmt::Write>(&self, f: &mut fmt::Formatter<W>) -> fmt::Result {
        fmt::Debug::fmt(&"SendError(..)", f)
    }
}

impl<T> fmt::Debug for TrySendError<T> {
    ghost debug_output = { λ e. Some (try_send_debug_text e) };

    fn fmt<W: fmt::Write>(&self, f: &mut fmt::Formatter<W>) -> fmt::Result {
        let text = match self {
            TrySendError::Full(_) => "Full(..)",
            TrySendError::Disconnected(_) => "Disconnected(..)",
            TrySendError::NoMemory(_) => "NoMemory(..)",
        };
        fmt::Debug::fmt(&text, f)
    }
}

impl<T> fmt::Debug for SendTimeoutError<T> {
    ghost debug_output = { λ _. Some (codes "\"SendTimeoutError(..)\"") };

    fn fmt<W: fmt::Write>(&self, f: &mut fmt::Formatter<W>) -> fmt::Result {
        fmt::Debug::fmt(&"SendTimeoutError(..)", f)
    }
}

impl<T: Drop> Error for SendError<T> {}

impl<T: Drop> Error for TrySendError<T> {}

impl<T: Drop> Error for SendTimeoutError<T> {}
