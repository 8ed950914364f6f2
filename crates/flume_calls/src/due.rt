//! The bell, which notifies the owners of due tickets.
ghost use Rattle.std.specs.Prelude.{◌≡◌, ◌≢◌, ℕ, Some, None};
ghost use Rattle.flume_state.specs.Sends.{NoDueSend};
ghost use Rattle.flume_state.specs.Receivers.{NoDueReceiver};
ghost use Rattle.flume_state.specs.Signals.{signal_of};
ghost use Rattle.flume_core.specs.Represents.{SameLogs};
ghost use Rattle.flume_calls.specs.Rings.{Rings, NoneDueAnyMore};

use flume_core::chan::Chan;
use std::alloc::Allocator;

/// Notifies the owner of a signal that its ticket is due.
pub trait Bell<S> {
    ghost rings: { Self → ℕ → S → Self → Type 0 };

    /// Rings once.
    fn ring(&mut self, ticket: u64, signal: &S)
        ensures { rings self.old ticket signal.now self.new };
}

/// Rings once for each due ticket, with the signal that it left last. No step; doesn't allocate.
/// ```
/// let mut chan: Chan<u64, u64> = Chan::new(alloc, Some(0));
/// chan.send(5, 10);                  // Pending(1)
/// chan.send(6, 20);                  // Pending(2)
/// chan.drop_receiver();              // Done
/// fire_due(&mut chan, &mut bell);    // it rings for each ticket with its signal
/// bell.rings();                      // [(1, 10), (2, 20)]
/// chan.next_due();                   // None
/// ```
#[inline(always)]
pub fn fire_due<T: Drop, S: Drop, A: Allocator + Copy, B: Bell<S>>(
    chan: &mut Chan<T, S, A>,
    bell: &mut B,
)
    ensures rings { Rings B.rings chan.old bell.old chan.new bell.new }
    ensures sends { NoDueSend chan.new.sends }
    ensures receivers { NoDueReceiver chan.new.entries }
    ensures none_due_any_more { NoneDueAnyMore chan.old chan.new }
    ensures represents { SameLogs A chan.old chan.new }
{
    while let Some(ticket) = chan.next_due() {
        ring_for(chan, ticket, bell);
    }
}

#[cold]
#[inline(never)]
fn ring_for<T: Drop, S: Drop, A: Allocator + Copy, B: Bell<S>>(
    chan: &Chan<T, S, A>,
    ticket: u64,
    bell: &mut B,
)
    requires live { signal_of chan.now ticket ≢ None }
    ensures rung { (signal : S) → signal_of chan.now ticket ≡ Some signal
        → B.rings bell.old ticket signal bell.new }
{
    let Some(signal) = chan.signal(ticket) else {
        unreachable!();
    };
    bell.ring(ticket, signal);
}
