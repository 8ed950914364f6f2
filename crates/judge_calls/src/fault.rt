//! Wrong lines.

/// Why a line is wrong.
#[derive(Clone, Copy, Debug, PartialEq, Eq, Drop)]
pub enum Fault {
    NoOpening,
    /// It isn't a name with a colon or an arrow behind it.
    NoEvent,
    NoCall,
    NoAnswer,
}
