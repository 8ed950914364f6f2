//! The error of a recording.
ghost use Rattle.std.specs.Prelude.{◌≡◌, Some};
ghost use Rattle.std.specs.Fmt.{styled_text};
ghost use Rattle.std.specs.IoError.{error_kind};
ghost use Rattle.judge_recorder.specs.declared.recording_error.RecordingError.{RecordingError};
ghost use Rattle.judge_recorder.specs.RecordingErrors.{error_text, kind_of};

use std::alloc::AllocError;
use std::error::Error;
use std::io::ErrorKind;
use std::{fmt, io};

/// Why there is no list of events.
#[derive(Clone, Copy, Debug, PartialEq, Eq, Drop)]
pub enum RecordingError {
    NoMemory,
    /// An allocation of a recorder failed.
    Incomplete,
    /// A recorder is missing.
    Missing,
    /// A recorder is another recording's.
    Stranger,
}

impl RecordingError {
    fn text(&self) -> &'static str
        ensures text { result.now ≡ error_text self.now }
    {
        match self {
            RecordingError::NoMemory => "out of memory",
            RecordingError::Incomplete => "a recorder isn't complete: memory was refused",
            RecordingError::Missing => "a recorder is missing",
            RecordingError::Stranger => "a recorder is another recording's",
        }
    }
}

impl fmt::Display for RecordingError {
    ghost output = { λ e. Some (error_text e) };

    ghost styled_output = { λ e spec. Some (styled_text spec (error_text e)) };

    fn fmt<W: fmt::Write>(&self, f: &mut fmt::Formatter<W>) -> fmt::Result {
        f.pad(self.text())
    }
}

impl Error for RecordingError {}

impl From<AllocError> for RecordingError {
    ghost from_gives = { λ _ error. error ≡ RecordingError.NoMemory };

    fn from(_refused: AllocError) -> RecordingError {
        RecordingError::NoMemory
    }
}

impl From<RecordingError> for io::Error {
    ghost from_gives = { λ e error. error_kind error ≡ kind_of e };

    fn from(e: RecordingError) -> io::Error {
        let kind = match e {
            RecordingError::Missing | RecordingError::Stranger => ErrorKind::InvalidInput,
            RecordingError::NoMemory | RecordingError::Incomplete => ErrorKind::OutOfMemory,
        };
        io::Error::new(kind, e.text())
    }
}
