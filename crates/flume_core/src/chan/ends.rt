//! The steps by which ends come and go. None allocates.
ghost use Rattle.std.specs.Prelude.{not, ◌≤◌, ◌≡◌, ◌+◌, ◌-◌, ◌<◌, ◌↔◌};
ghost use Rattle.flume_model.specs.Limits.{is_closed, most};
ghost use Rattle.flume_state.specs.Effects.{after_end_dropped};
ghost use Rattle.flume_state.specs.State.{State};
ghost use Rattle.flume_core.specs.Represents.{Extends, IsReachable, IsRefusal};
ghost use Rattle.flume_state.specs.Due.{BecomesDue};
ghost use Rattle.flume_core.specs.PossibleReply.{PossibleReply};

use super::Chan;
use flume_model::step::{Reply, Step};
use std::alloc::Allocator;

impl<T: Drop, S: Drop, A: Allocator + Copy> Chan<T, S, A> {
    /// One more sender. `NoEnd`: none is left. `CountFull`: no more can be counted.
    pub fn clone_sender(&mut self) -> Reply<T, A>
        ensures step { Extends self.old Step.CloneSender result self.new }
        ensures becomes_due { IsReachable A self.old
            → BecomesDue self.old Step.CloneSender result self.new }
        ensures possible_reply { PossibleReply Step.CloneSender result }
        ensures space { self.old.space ≤ self.new.space }
        ensures no_end { (result ≡ Reply.NoEnd) ↔ (self.old.senders ≡ 0) }
        ensures count_full { (result ≡ Reply.CountFull) ↔ (self.old.senders ≡ most) }
        ensures done { (result ≡ Reply.Done)
            ↔ (0 < self.old.senders) × (self.old.senders < most) }
        ensures counted { result ≡ Reply.Done
            → self.new ≡ record self.old { senders = self.old.senders + 1 } }
        ensures unchanged { IsRefusal result → self.new ≡ self.old }
    {
        match self.senders {
            0 => Reply::NoEnd,
            usize::MAX => Reply::CountFull,
            senders => {
                self.senders = senders + 1;
                Reply::Done
            }
        }
    }

    /// One more receiver; as `clone_sender`.
    pub fn clone_receiver(&mut self) -> Reply<T, A>
        ensures step { Extends self.old Step.CloneReceiver result self.new }
        ensures becomes_due { IsReachable A self.old
            → BecomesDue self.old Step.CloneReceiver result self.new }
        ensures possible_reply { PossibleReply Step.CloneReceiver result }
        ensures space { self.old.space ≤ self.new.space }
        ensures no_end { (result ≡ Reply.NoEnd) ↔ (self.old.receivers ≡ 0) }
        ensures count_full { (result ≡ Reply.CountFull) ↔ (self.old.receivers ≡ most) }
        ensures done { (result ≡ Reply.Done)
            ↔ (0 < self.old.receivers) × (self.old.receivers < most) }
        ensures counted { result ≡ Reply.Done
            → self.new ≡ record self.old { receivers = self.old.receivers + 1 } }
        ensures unchanged { IsRefusal result → self.new ≡ self.old }
    {
        match self.receivers {
            0 => Reply::NoEnd,
            usize::MAX => Reply::CountFull,
            receivers => {
                self.receivers = receivers + 1;
                Reply::Done
            }
        }
    }

    /// One sender leaves. If this closes the channel, every waiting receiver is woken, and every
    /// blocked send is due. Once all ends are dropped, no message and no ticket is left.
    pub fn drop_sender(&mut self) -> Reply<T, A>
        ensures step { Extends self.old Step.DropSender result self.new }
        ensures becomes_due { IsReachable A self.old
            → BecomesDue self.old Step.DropSender result self.new }
        ensures possible_reply { PossibleReply Step.DropSender result }
        ensures space { self.old.space ≤ self.new.space }
        ensures done { (result ≡ Reply.Done) ↔ (0 < self.old.senders) }
        ensures no_end { (result ≡ Reply.NoEnd) ↔ (self.old.senders ≡ 0) }
        ensures becomes { 0 < self.old.senders → self.new
            ≡ after_end_dropped (not (is_closed self.old.senders self.old.receivers))
            (record self.old { senders = self.old.senders - 1 }) }
        ensures unchanged { IsRefusal result → self.new ≡ self.old }
    {
        if self.senders == 0 {
            return Reply::NoEnd;
        }
        let was_open = self.is_open();
        self.senders -= 1;
        self.finish_drop(was_open);
        Reply::Done
    }

    /// One receiver leaves; as `drop_sender`.
    pub fn drop_receiver(&mut self) -> Reply<T, A>
        ensures step { Extends self.old Step.DropReceiver result self.new }
        ensures becomes_due { IsReachable A self.old
            → BecomesDue self.old Step.DropReceiver result self.new }
        ensures possible_reply { PossibleReply Step.DropReceiver result }
        ensures space { self.old.space ≤ self.new.space }
        ensures done { (result ≡ Reply.Done) ↔ (0 < self.old.receivers) }
        ensures no_end { (result ≡ Reply.NoEnd) ↔ (self.old.receivers ≡ 0) }
        ensures becomes { 0 < self.old.receivers → self.new
            ≡ after_end_dropped (not (is_closed self.old.senders self.old.receivers))
            (record self.old { receivers = self.old.receivers - 1 }) }
        ensures unchanged { IsRefusal result → self.new ≡ self.old }
    {
        if self.receivers == 0 {
            return Reply::NoEnd;
        }
        let was_open = self.is_open();
        self.receivers -= 1;
        self.finish_drop(was_open);
        Reply::Done
    }

    fn finish_drop(&mut self, was_open: bool)
        ensures dropped { self.new ≡ after_end_dropped was_open self.old }
    {
        if self.senders == 0 && self.receivers == 0 {
            self.line.clear();
            self.entries.clear();
            return;
        }
        if was_open && !self.is_open() {
            self.entries.wake_all();
            self.line.mark_blocked();
        }
    }
}
