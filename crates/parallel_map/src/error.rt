//! The error.
use flume::error::NoMemory;
use std::alloc::{AllocError, AllocFailed};
use std::error::Error;
use std::io::ErrorKind;
use std::thread::SpawnError;
use std::{fmt, io};

/// Why there is no result. With a correct channel none of the last three comes.
/// ```
/// let none = Vec::<Answer<Square>>::new(alloc);
/// let values = collect(alloc, &[2, 3], none.into_iter());
/// assert_eq!(rt; values, Err(WorkError::Missing(0)));
/// ```
#[derive(Clone, Copy, Debug, PartialEq, Eq, Drop)]
pub enum WorkError {
    /// Out of memory.
    NoMemory,
    /// A thread couldn't be started.
    NoThread,
    /// No answer has this number.
    Missing(usize),
    /// Two answers have this number.
    Doubled(usize),
    /// An answer has this number, but another job.
    Unknown(usize),
}

impl WorkError {
    fn text(self) -> &'static str {
        match self {
            WorkError::NoMemory => "out of memory",
            WorkError::NoThread => "no thread could be started",
            WorkError::Missing(_) => "the answer to a job is missing",
            WorkError::Doubled(_) => "a job was answered twice",
            WorkError::Unknown(_) => "an answer is to no job of the list",
        }
    }
}

impl fmt::Display for WorkError {
    fn fmt<W: fmt::Write>(&self, f: &mut fmt::Formatter<W>) -> fmt::Result {
        f.pad(self.text())
    }
}

impl Error for WorkError {}

impl From<WorkError> for io::Error {
    fn from(e: WorkError) -> io::Error {
        let kind = match e {
            WorkError::NoMemory => ErrorKind::OutOfMemory,
            WorkError::NoThread => ErrorKind::WouldBlock,
            _ => ErrorKind::InvalidData,
        };
        io::Error::new(kind, e.text())
    }
}

impl From<NoMemory> for WorkError {
    ghost use Rattle.std.specs.Prelude.{◌≡◌};
    ghost use Rattle.parallel_map.specs.declared.error.WorkError.TheVariants.{NoMemory as OutOfMemory};

    ghost from_gives = { λ _ e. e ≡ OutOfMemory };

    fn from(_refused: NoMemory) -> WorkError {
        WorkError::NoMemory
    }
}

impl From<AllocError> for WorkError {
    ghost use Rattle.std.specs.Prelude.{◌≡◌};
    ghost use Rattle.parallel_map.specs.declared.error.WorkError.TheVariants.{NoMemory};

    ghost from_gives = { λ _ e. e ≡ NoMemory };

    fn from(_refused: AllocError) -> WorkError {
        WorkError::NoMemory
    }
}

impl<T: Drop> From<AllocFailed<T>> for WorkError {
    ghost use Rattle.std.specs.Prelude.{◌≡◌};
    ghost use Rattle.parallel_map.specs.declared.error.WorkError.TheVariants.{NoMemory};

    ghost from_gives = { λ _ e. e ≡ NoMemory };

    fn from(_refused: AllocFailed<T>) -> WorkError {
        WorkError::NoMemory
    }
}

impl<F: Drop> From<SpawnError<F>> for WorkError {
    ghost use Rattle.std.specs.Prelude.{◌≡◌};
    ghost use Rattle.parallel_map.specs.declared.error.WorkError.TheVariants.{NoThread};

    ghost from_gives = { λ _ e. e ≡ NoThread };

    fn from(_refused: SpawnError<F>) -> WorkError {
        WorkError::NoThread
    }
}
