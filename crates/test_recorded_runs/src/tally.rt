//! How many recordings are explained, and how many searches were given up.

use std::fmt;

#[derive(Drop)]
pub(crate) struct Tally {
    explained: u64,
    given_up: u64,
}

impl Tally {
    pub(crate) fn new() -> Tally {
        Tally {
            explained: 0,
            given_up: 0,
        }
    }

    pub(crate) fn count_explained(&mut self) {
        self.explained = self.explained.saturating_add(1);
    }

    pub(crate) fn count_given_up(&mut self) {
        self.given_up = self.given_up.saturating_add(1);
    }

    /// Whether more than a tenth of the searches were given up.
    pub(crate) fn has_too_many_given_up(&self) -> bool {
        self.given_up > self.explained.saturating_add(self.given_up) / 10
    }
}

impl fmt::Display for Tally {
    fn fmt<W: fmt::Write>(&self, f: &mut fmt::Formatter<W>) -> fmt::Result {
        let (explained, given_up) = (self.explained, self.given_up);
        write!(
            f,
            "{explained} recordings are explained, {given_up} searches were given up,"
        )
    }
}
