//! A future polled by hand, and ends that are compared.
ghost use Rattle.std.specs.Prelude.{◌≡◌, ◌↔◌, IsTrue, Some};

use flume::error::SendError;
use flume::{Sender, Waits};
use futures::future::Future;
use futures::task::{Context, Poll};
use std::alloc::Allocator;

/// Polls a send once. `Some(None)`: its message was taken in. `Some(Some(back))`: its message comes
/// back. `None`: it was pending, and is dropped.
pub fn poll_once<T: Drop, R: Waits, A: Allocator + Copy>(
    tx: &Sender<T, R, A>,
    message: T,
    cx: &mut Context<'_>,
) -> Option<Option<T>>
    ensures same { (back : T) → result ≡ Some (Some back) → back ≡ message }
{
    let mut send = tx.send_async(message);
    match send.poll(cx) {
        Poll::Ready(Ok(())) => Some(None),
        Poll::Ready(Err(SendError::Disconnected(back))) => Some(Some(back)),
        Poll::Ready(Err(SendError::NoMemory(back))) => Some(Some(back)),
        Poll::Pending => None,
    }
}

/// Whether all three send into channels of the same number.
pub fn send_together<T: Drop, R: Waits, A: Allocator + Copy>(
    first: &Sender<T, R, A>,
    second: &Sender<T, R, A>,
    third: &Sender<T, R, A>,
) -> bool
    ensures all { IsTrue result ↔ (first.now ≡ second.now) × (second.now ≡ third.now) }
{
    first.same_channel(second) && second.same_channel(third)
}
