//! A send that was refused keeps its message.
ghost use Rattle.std.specs.Prelude.{◌≡◌, ◌++◌, ◌∷◌, [], IfNone, IfSome, List};

use flume::{Sender, Waits};
use std::alloc::Allocator;
use std::collections::VecDeque;

/// Offers a message once. If it wasn't taken in, it comes back.
pub fn offer<T: Drop, R: Waits, A: Allocator + Copy>(tx: &Sender<T, R, A>, message: T) -> Option<T>
    ensures same { IfSome result (λ back. back ≡ message) }
{
    match tx.try_send(message) {
        Ok(()) => None,
        Err(error) => Some(error.into_inner()),
    }
}

/// Offers messages from the front on until one comes back, which is answered.
pub fn offer_all<T: Drop, R: Waits, A: Allocator + Copy>(
    tx: &Sender<T, R, A>,
    messages: &mut VecDeque<T, A>,
) -> Option<T>
    ensures refused { IfSome result (λ back.
        (sent : List T) × (messages.old.items ≡ sent ++ back ∷ messages.new.items)) }
    ensures all_sent { IfNone result (messages.new.items ≡ []) }
{
    while let Some(message) = messages.pop_front() {
        let back = offer(tx, message);
        if back.is_some() {
            return back;
        }
    }
    None
}
