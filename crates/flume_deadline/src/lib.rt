//! Deadlines: until when a call waits. A clock that can't be read counts as past each deadline.
#![tactic(auto)]

ghost use Rattle.std.specs.Prelude.{◌≡◌, ◌≢◌, ℕ, ◌+◌, ◌<◌, ◌≤◌, ◌↔◌, true, false, IsErr, IsNone};
ghost use Rattle.std.specs.Prelude.{IfSome, Ok};
ghost use Rattle.std.specs.Duration.{as_nanos};
ghost use Rattle.std.specs.Time.{instant_nanos, FitsClock};
ghost use Rattle.flume_deadline.specs.Deadlines.{IsAt, IsAfter, CanBeAhead};

use std::io;
use std::time::{Clock, Duration, Instant};

/// The deadline of a call: none, a time, or one that is already reached.
#[derive(Clone, Copy, Drop)]
pub enum Deadline {
    Never,
    At(Instant),
    Reached,
}

impl Deadline {
    /// This long from now: `Never` if the deadline overflows, `Reached` if the clock can't be read.
    /// ```
    /// let deadline = Deadline::after(&rt, Duration::from_secs(1));
    /// deadline.is_reached(&rt);              // false, within this second
    /// ```
    pub fn after<R: Clock>(rt: &R, timeout: Duration) -> Deadline
        ensures after { IsAfter timeout result }
    {
        Deadline::past(Instant::now(rt), timeout)
    }

    fn past(now: io::Result<Instant>, timeout: Duration) -> Deadline
        ensures unread { IsErr now → result ≡ Deadline.Reached }
        ensures sum { (time : Instant) → now ≡ Ok time
            → FitsClock (instant_nanos time + as_nanos timeout)
            → IsAt result (instant_nanos time + as_nanos timeout) }
        ensures no_sum { (time : Instant) → now ≡ Ok time
            → (FitsClock (instant_nanos time + as_nanos timeout) → ⊥)
            → result ≡ Deadline.Never }
    {
        match now {
            Ok(now) => match now.checked_add(timeout) {
                Some(deadline) => Deadline::At(deadline),
                None => Deadline::Never,
            },
            Err(_) => Deadline::Reached,
        }
    }

    /// Whether the clock has reached it; true if the clock can't be read.
    pub fn is_reached<R: Clock>(self, rt: &R) -> bool
        ensures never { result ≡ true → self ≢ Deadline.Never }
        ensures ahead { result ≡ false → CanBeAhead self }
    {
        match self {
            Deadline::Never => false,
            Deadline::At(deadline) => left_until(rt, deadline).is_none(),
            Deadline::Reached => true,
        }
    }
}

/// The time to the deadline; `None` once it is reached, or if the clock can't be read.
pub fn left_until<R: Clock>(rt: &R, deadline: Instant) -> Option<Duration>
    ensures left { IfSome result (λ left. (now : ℕ) × FitsClock now
        × (now < instant_nanos deadline) × (as_nanos left + now ≡ instant_nanos deadline)) }
{
    left_from(Instant::now(rt), deadline)
}

fn left_from(now: io::Result<Instant>, deadline: Instant) -> Option<Duration>
    ensures unread { IsErr now → IsNone result }
    ensures reached { (time : Instant) → now ≡ Ok time
        → (IsNone result ↔ (instant_nanos deadline ≤ instant_nanos time)) }
    ensures left { (time : Instant) → now ≡ Ok time
        → IfSome result (λ d. as_nanos d + instant_nanos time ≡ instant_nanos deadline) }
{
    let now = now.ok()?;
    let left = deadline.saturating_duration_since(now);
    if left.is_zero() { None } else { Some(left) }
}
