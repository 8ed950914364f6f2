//! The step that sets the capacity.
ghost use Rattle.std.specs.Prelude.{◌≡◌, ◌≤◌, ◌↔◌, Some, None};
ghost use Rattle.flume_model.specs.Limits.{IsBounded, IsOpen, IsClosed};
ghost use Rattle.flume_model.specs.Line.{greater};
ghost use Rattle.flume_state.specs.Effects.{with_capacity};
ghost use Rattle.flume_state.specs.State.{State};
ghost use Rattle.flume_core.specs.Represents.{Extends, IsReachable, IsRefusal};
ghost use Rattle.flume_state.specs.Due.{BecomesDue};
ghost use Rattle.flume_core.specs.PossibleReply.{PossibleReply};

use super::Chan;
use flume_model::step::{Reply, Step};
use std::alloc::Allocator;

impl<T: Drop, S: Drop, A: Allocator + Copy> Chan<T, S, A> {
    /// Sets the capacity: blocked messages move in while the queue is below it. `Unbounded`: there
    /// is none to set. `Ended`: there is one, and the channel is closed. Doesn't allocate.
    /// ```
    /// let mut chan: Chan<u64, u32> = Chan::new(alloc, Some(0));
    /// chan.send(7, 10);                  // Pending(1), with the signal 10
    /// chan.set_capacity(1);              // Done
    /// chan.poll_send(1, None);           // Accepted
    /// ```
    pub fn set_capacity(&mut self, capacity: usize) -> Reply<T, A>
        ensures step { Extends self.old (Step.SetCapacity capacity) result self.new }
        ensures becomes_due { IsReachable A self.old
            → BecomesDue self.old (Step.SetCapacity capacity) result self.new }
        ensures possible_reply { PossibleReply (Step.SetCapacity capacity) result }
        ensures space { self.old.space ≤ self.new.space }
        ensures unbounded { (result ≡ Reply.Unbounded) ↔ (self.old.capacity ≡ None) }
        ensures ended { (result ≡ Reply.Ended)
            ↔ IsBounded self.old.capacity × IsClosed self.old.senders self.old.receivers }
        ensures done { (result ≡ Reply.Done)
            ↔ IsBounded self.old.capacity × IsOpen self.old.senders self.old.receivers }
        ensures resized { result ≡ Reply.Done → self.new ≡ with_capacity capacity self.old }
        ensures unchanged { IsRefusal result → self.new ≡ self.old }
    {
        if self.capacity.is_none() {
            return Reply::Unbounded;
        }
        if !self.is_open() {
            return Reply::Ended;
        }
        // No wake round follows: while a receiver waits, no message is blocked that could move in.
        self.keep_capacity(capacity);
        self.fill_up();
        Reply::Done
    }

    fn keep_capacity(&mut self, capacity: usize)
        ensures capacity { self.new ≡ record self.old {
          capacity = Some capacity;
          greatest = greater self.old.greatest (Some capacity);
        } }
    {
        self.capacity = Some(capacity);
        if let Some(greatest) = self.greatest {
            self.greatest = Some(greatest.max(capacity));
        }
    }
}
