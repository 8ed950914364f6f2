//! The error of a list of arms.
ghost use Rattle.std.specs.Prelude.{◌≡◌, Some};
ghost use Rattle.std.specs.Fmt.{styled_text};
ghost use Rattle.std.specs.IoError.{error_kind};
ghost use Rattle.flume.specs.declared.select.error.EachError.{EachError};
ghost use Rattle.flume.specs.ArmLists.{each_text, each_kind};

use std::alloc::AllocError;
use std::error::Error;
use std::io::ErrorKind;
use std::{fmt, io};

/// No arms of a list were added to a selector.
#[derive(Clone, Copy, Debug, PartialEq, Eq, Drop)]
pub enum EachError {
    /// The list is empty, and no arm was added before.
    NoArm,
    NoMemory,
}

impl EachError {
    fn text(&self) -> &'static str
        ensures text { result.now ≡ each_text self.now }
    {
        match self {
            EachError::NoArm => "no arm to wait for",
            EachError::NoMemory => "out of memory",
        }
    }
}

impl fmt::Display for EachError {
    ghost output = { λ e. Some (each_text e) };

    ghost styled_output = { λ e spec. Some (styled_text spec (each_text e)) };

    fn fmt<W: fmt::Write>(&self, f: &mut fmt::Formatter<W>) -> fmt::Result {
        f.pad(self.text())
    }
}

impl Error for EachError {}

impl From<AllocError> for EachError {
    ghost from_gives = { λ _ error. error ≡ EachError.NoMemory };

    fn from(_refused: AllocError) -> EachError {
        EachError::NoMemory
    }
}

impl From<EachError> for io::Error {
    ghost from_gives = { λ e error. error_kind error ≡ each_kind e };

    fn from(e: EachError) -> io::Error {
        let kind = match e {
            EachError::NoArm => ErrorKind::InvalidInput,
            EachError::NoMemory => ErrorKind::OutOfMemory,
        };
        io::Error::new(kind, e.text())
    }
}
