//! Conversions to std's errors, by `?`, for a crate that lists `flume_error` among its libraries.
//! A message that wasn't sent is dropped. That the io error has the error's text is only tested.
ghost use Rattle.std.specs.Prelude.{◌≡◌};
ghost use Rattle.std.specs.Allocator.{alloc_error};
ghost use Rattle.std.specs.IoError.{error_kind};
ghost use Rattle.std.specs.declared.io.ErrorKind.TheVariants.{OutOfMemory};
ghost use Rattle.flume_error.specs.Kinds.{send_kind, try_send_kind, send_timeout_kind};
ghost use Rattle.flume_error.specs.Kinds.{receive_kind, try_receive_kind, receive_timeout_kind};
ghost use Rattle.flume_error.specs.Kinds.{select_kind, capacity_kind};

use crate::error::capacity::CapacityError;
use crate::error::receive::{RecvError, RecvTimeoutError, TryRecvError};
use crate::error::send::{SendError, SendTimeoutError, TrySendError};
use crate::error::{NoMemory, SelectError};
use std::alloc::AllocError;
use std::io;
use std::io::ErrorKind;

impl From<NoMemory> for AllocError {
    ghost from_gives = { λ _ error. error ≡ alloc_error };

    fn from(_refused: NoMemory) -> AllocError {
        AllocError
    }
}

impl From<NoMemory> for io::Error {
    ghost from_gives = { λ _ error. error_kind error ≡ OutOfMemory };

    fn from(_refused: NoMemory) -> io::Error {
        io::Error::new(ErrorKind::OutOfMemory, NoMemory::text())
    }
}

impl<T: Drop> From<SendError<T>> for io::Error {
    ghost from_gives = { λ e error. error_kind error ≡ send_kind e };

    fn from(e: SendError<T>) -> io::Error {
        let kind = match &e {
            SendError::Disconnected(_) => ErrorKind::BrokenPipe,
            SendError::NoMemory(_) => ErrorKind::OutOfMemory,
        };
        io::Error::new(kind, e.text())
    }
}

impl<T: Drop> From<TrySendError<T>> for io::Error {
    ghost from_gives = { λ e error. error_kind error ≡ try_send_kind e };

    fn from(e: TrySendError<T>) -> io::Error {
        let kind = match &e {
            TrySendError::Full(_) => ErrorKind::WouldBlock,
            TrySendError::Disconnected(_) => ErrorKind::BrokenPipe,
            TrySendError::NoMemory(_) => ErrorKind::OutOfMemory,
        };
        io::Error::new(kind, e.text())
    }
}

impl<T: Drop> From<SendTimeoutError<T>> for io::Error {
    ghost from_gives = { λ e error. error_kind error ≡ send_timeout_kind e };

    fn from(e: SendTimeoutError<T>) -> io::Error {
        let kind = match &e {
            SendTimeoutError::Timeout(_) => ErrorKind::TimedOut,
            SendTimeoutError::Disconnected(_) => ErrorKind::BrokenPipe,
            SendTimeoutError::NoMemory(_) => ErrorKind::OutOfMemory,
        };
        io::Error::new(kind, e.text())
    }
}

impl From<RecvError> for io::Error {
    ghost from_gives = { λ e error. error_kind error ≡ receive_kind e };

    fn from(e: RecvError) -> io::Error {
        let kind = match e {
            RecvError::Disconnected => ErrorKind::UnexpectedEof,
            RecvError::NoMemory => ErrorKind::OutOfMemory,
        };
        io::Error::new(kind, e.text())
    }
}

impl From<TryRecvError> for io::Error {
    ghost from_gives = { λ e error. error_kind error ≡ try_receive_kind e };

    fn from(e: TryRecvError) -> io::Error {
        let kind = match e {
            TryRecvError::Empty => ErrorKind::WouldBlock,
            TryRecvError::Disconnected => ErrorKind::UnexpectedEof,
            TryRecvError::NoMemory => ErrorKind::OutOfMemory,
        };
        io::Error::new(kind, e.text())
    }
}

impl From<RecvTimeoutError> for io::Error {
    ghost from_gives = { λ e error. error_kind error ≡ receive_timeout_kind e };

    fn from(e: RecvTimeoutError) -> io::Error {
        let kind = match e {
            RecvTimeoutError::Timeout => ErrorKind::TimedOut,
            RecvTimeoutError::Disconnected => ErrorKind::UnexpectedEof,
            RecvTimeoutError::NoMemory => ErrorKind::OutOfMemory,
        };
        io::Error::new(kind, e.text())
    }
}

impl From<SelectError> for io::Error {
    ghost from_gives = { λ e error. error_kind error ≡ select_kind e };

    fn from(e: SelectError) -> io::Error {
        let kind = match e {
            SelectError::Timeout => ErrorKind::TimedOut,
            SelectError::NoMemory => ErrorKind::OutOfMemory,
        };
        io::Error::new(kind, e.text())
    }
}

impl From<CapacityError> for io::Error {
    ghost from_gives = { λ e error. error_kind error ≡ capacity_kind e };

    fn from(e: CapacityError) -> io::Error {
        let kind = match e {
            CapacityError::Unbounded => ErrorKind::Unsupported,
            CapacityError::Disconnected => ErrorKind::BrokenPipe,
        };
        io::Error::new(kind, e.text())
    }
}
