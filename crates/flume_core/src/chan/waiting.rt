//! Whether a call would have to wait if its step were made now. None of these is a step.
ghost use Rattle.std.specs.Prelude.{IsTrue, ◌↔◌};
ghost use Rattle.flume_core.specs.Waiting.{FindsNothing, FindsNoRoom, IsHeldBack};

use super::Chan;
use std::alloc::Allocator;

impl<T: Drop, S: Drop, A: Allocator + Copy> Chan<T, S, A> {
    /// Whether a receive would find nothing: `try_recv` answers `Empty` then, and `recv` parks.
    /// ```
    /// let mut chan: Chan<u64, u32> = Chan::new(alloc, None);
    /// chan.receive_would_wait();         // true
    /// chan.try_send(42);
    /// chan.receive_would_wait();         // false
    /// ```
    #[inline(always)]
    pub fn receive_would_wait(&self) -> bool
        ensures waits { IsTrue result ↔ FindsNothing self.now }
    {
        self.is_open() && self.line.queued_len() == 0 && self.line.blocked_len() == 0
    }

    /// Whether an offer would find no room: `try_send` answers `Full` then, and `send` blocks.
    /// ```
    /// let mut chan: Chan<u64, u32> = Chan::new(alloc, Some(1));
    /// chan.send_would_wait();            // false
    /// chan.try_send(42);
    /// chan.send_would_wait();            // true
    /// ```
    #[inline(always)]
    pub fn send_would_wait(&self) -> bool
        ensures waits { IsTrue result ↔ FindsNoRoom self.now }
    {
        self.is_open() && !self.entries.some_wait() && !self.has_room()
    }

    /// Whether this send is blocked, in an open channel: `poll_send` answers `Waiting` then.
    /// ```
    /// let mut chan: Chan<u64, u32> = Chan::new(alloc, Some(0));
    /// chan.send(7, 10);                  // Pending(1)
    /// chan.parked_send_would_wait(1);    // true
    /// chan.try_recv();                   // Got(7)
    /// chan.parked_send_would_wait(1);    // false
    /// ```
    pub fn parked_send_would_wait(&self, ticket: u64) -> bool
        ensures waits { IsTrue result ↔ IsHeldBack ticket self.now }
    {
        match self.line.accepted(ticket) {
            Some(false) => self.is_open(),
            _ => false,
        }
    }
}
