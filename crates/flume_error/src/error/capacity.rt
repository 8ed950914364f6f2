//! The error of a change of the capacity.
ghost use Rattle.std.specs.Prelude.{◌≡◌, Some};
ghost use Rattle.std.specs.Fmt.{styled_text};
ghost use Rattle.flume_error.specs.Texts.{capacity_text};

use std::error::Error;
use std::fmt;

/// The capacity of a channel wasn't changed.
#[derive(Clone, Copy, Debug, PartialEq, Eq, Drop)]
pub enum CapacityError {
    /// The channel is unbounded, closed or not: it stays so.
    Unbounded,
    /// The channel is bounded, and all its senders or all its receivers have been dropped.
    Disconnected,
}

impl CapacityError {
    pub(crate) fn text(&self) -> &'static str
        ensures text { result.now ≡ capacity_text self.now }
    {
        match self {
            CapacityError::Unbounded => "channel has no capacity",
            CapacityError::Disconnected => "changing the capacity of a closed channel",
        }
    }
}

impl fmt::Display for CapacityError {
    ghost output = { λ e. Some (capacity_text e) };

    ghost styled_output = { λ e spec. Some (styled_text spec (capacity_text e)) };

    fn fmt<W: fmt::Write>(&self, f: &mut fmt::Formatter<W>) -> fmt::Result {
        f.pad(self.text())
    }
}

impl Error for CapacityError {}
