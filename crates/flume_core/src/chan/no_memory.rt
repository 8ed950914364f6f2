//! Whether a step may be answered with `NoMemory`, by the rule for all channels.
ghost use Rattle.std.specs.Prelude.{◌≡◌, true, IsTrue, ◌↔◌};
ghost use Rattle.flume_state.specs.Receivers.{receiver_status, only_leaves};
ghost use Rattle.flume_core.specs.NoMemoryRule.{NoMemoryIsLawful};

use super::Chan;
use flume_model::step::Step;
use flume_state::entries::ReceiverStatus;
use std::alloc::Allocator;

impl<T: Drop, S: Drop, A: Allocator + Copy> Chan<T, S, A> {
    /// Whether `NoMemory` may answer the step now, even if no `Chan` answers so.
    /// ```
    /// let mut chan: Chan<u64, u32> = Chan::new(alloc, Some(0));
    /// chan.no_memory_is_lawful(&Step::TryRecv);    // false
    /// chan.send(7, 10);                        // Pending(1)
    /// chan.no_memory_is_lawful(&Step::TryRecv);    // true
    /// ```
    pub fn no_memory_is_lawful(&self, step: &Step<T>) -> bool
        ensures lawful { IsTrue result ↔ NoMemoryIsLawful self.now step.now }
    {
        match step {
            Step::TrySend(_) => self.is_open() && !self.send_would_wait(),
            Step::Send(_) => {
                self.is_open() && (!self.send_would_wait() || self.next_ticket < u64::MAX)
            }
            Step::TryRecv => self.line.blocked_len() > 0,
            Step::Recv(_) => {
                self.line.blocked_len() > 0
                    || self.receive_would_wait() && self.next_ticket < u64::MAX
            }
            Step::Poll(ticket) => self.is_nonblocking(*ticket) && self.line.blocked_len() > 0,
            Step::Drain => self.line.queued_len() > 0,
            _ => false,
        }
    }

    fn is_nonblocking(&self, ticket: u64) -> bool
        ensures nonblocking { IsTrue result
            ↔ (only_leaves (receiver_status ticket self.now.entries) ≡ true) }
    {
        match self.entries.status(ticket) {
            Some(ReceiverStatus::Waiting | ReceiverStatus::Woken) => true,
            _ => false,
        }
    }
}
