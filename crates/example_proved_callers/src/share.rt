//! A message whose type has an invariant: the receiver relies on it.
ghost use Rattle.std.specs.Prelude.{◌≡◌, ◌≤◌, ◌<◌, ◌⊎◌, IfOk, IfNone, IfSome};

use flume::error::RecvError;
use flume::{Receiver, Waits};
use std::alloc::Allocator;

/// A number of parts of a whole.
#[derive(Clone, Copy, Drop)]
pub struct Share {
    parts: u32,
    whole: u32,
    ghost some: { 1 ≤ whole },
    ghost within: { parts ≤ whole },
}

impl Share {
    /// This many parts of a whole. `None`: the whole is 0, or less than the parts.
    pub fn new(parts: u32, whole: u32) -> Option<Share>
        ensures made { IfSome result (λ share. (share.parts ≡ parts) × (share.whole ≡ whole)) }
        ensures none { IfNone result ((whole ≡ 0) ⊎ (whole < parts)) }
    {
        if whole == 0 || parts > whole {
            return None;
        }
        Some(Share { parts, whole })
    }
}

/// Receives a share, and says how many hundredths it is.
pub fn receive_hundredths<R: Waits, A: Allocator + Copy>(
    rx: &Receiver<Share, R, A>,
) -> Result<u64, RecvError>
    ensures at_most { IfOk result (λ hundredths. hundredths ≤ 100) }
{
    let share = rx.recv()?;
    Ok(share.parts as u64 * 100 / share.whole as u64)
}
