//! What may go wrong.
use crate::USAGE;
use flume::error::{RecvError, SendError};
use std::fmt;

#[derive(Clone, Copy)]
pub(crate) enum Fault {
    NoWords,
    WrongWords,
    /// The shape would wait for ever.
    WrongCapacity,
    NoMemory,
    NoThread,
    NoClock,
    NoExecutor,
    NotSent,
    NotReceived,
    WrongMessages,
}

impl Fault {
    pub(crate) fn status(self) -> u8 {
        match self {
            Fault::WrongWords => 2,
            Fault::WrongCapacity => 3,
            _ => 1,
        }
    }
}

impl fmt::Display for Fault {
    fn fmt<W: fmt::Write>(&self, f: &mut fmt::Formatter<W>) -> fmt::Result {
        f.write_str(match self {
            Fault::NoWords | Fault::WrongWords => USAGE,
            Fault::WrongCapacity => "this shape can't be had at this capacity",
            Fault::NoMemory => "out of memory",
            Fault::NoThread => "no thread can be started",
            Fault::NoClock => "the clock can't be read",
            Fault::NoExecutor => "no executor can be made",
            Fault::NotSent => "a message wasn't sent",
            Fault::NotReceived => "no message came",
            Fault::WrongMessages => "what was received isn't what was sent",
        })
    }
}

impl From<SendError<usize>> for Fault {
    fn from(_: SendError<usize>) -> Fault {
        Fault::NotSent
    }
}

impl From<RecvError> for Fault {
    fn from(_: RecvError) -> Fault {
        Fault::NotReceived
    }
}
