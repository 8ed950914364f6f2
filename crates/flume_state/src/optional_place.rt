//! A place, or none, in the memory of a number.
ghost use Rattle.std.specs.Prelude.{◌≡◌, ◌↔◌, Some, None, IfSome};

use std::marker::Model;

// No chain has this number as a place.
const NO_PLACE: u32 = u32::MAX;

/// Half as large as an `Option<u32>`: so the node of a message of 8 bytes takes 24 instead of 32.
#[derive(Drop)]
pub struct OptionalPlace {
    number: u32,
}

impl Model for OptionalPlace {
    ghost use Rattle.std.specs.Prelude.{ℕ, Option, Some, None, ◌==◌, if◌then◌else◌};

    ghost Value = { Option ℕ };

    ghost view = { λ s. if s.number == 4294967295 then None else Some s.number };
}

impl OptionalPlace {
    /// No place.
    /// ```
    /// OptionalPlace::none().get();          // None
    /// if let Some(place) = OptionalPlace::of(7) {
    ///     place.get();                   // Some(7)
    /// }
    /// ```
    #[inline(always)]
    pub(crate) fn none() -> Self
        ensures none { result ≡ None }
    {
        OptionalPlace { number: NO_PLACE }
    }

    #[inline(always)]
    pub(crate) fn of(place: u32) -> Option<Self>
        ensures place { IfSome result (λ made. made ≡ Some place) }
        ensures refused { result ≡ None ↔ place ≡ 4294967295 }
    {
        if place == NO_PLACE {
            return None;
        }
        Some(OptionalPlace { number: place })
    }

    #[inline(always)]
    pub(crate) fn get(&self) -> Option<u32>
        ensures place { result ≡ self.now }
    {
        if self.number == NO_PLACE {
            return None;
        }
        Some(self.number)
    }
}
