//! The moves of sends on a configuration.
ghost use Rattle.std.specs.Prelude.{◌≡◌, ◌==◌, ◌&&◌, not, IfOk};
ghost use Rattle.std.specs.Result.{OnOk};
ghost use Rattle.std.specs.List.{list_any};
ghost use Rattle.judge_search.specs.ByPlaces.{some_waits, full_now, push, without_send};
ghost use Rattle.judge_search.specs.Outcomes.{outcome, take_back_outcome};
ghost use Rattle.judge_search.specs.declared.step_of.Move.{Move};

use crate::configuration::{Configuration, ParkedReceive};
use crate::place_reply::PlaceReply;
use crate::step_of::Move;
use std::alloc::{AllocError, Allocator};

impl<A: Allocator + Copy> Configuration<A> {
    pub(crate) fn has_no_room(&self) -> bool
        ensures room { result ≡ (not (some_waits self.now.receives) && full_now self.now) }
    {
        !some_wait(self.receives.as_slice()) && self.is_full()
    }

    fn push(&mut self, place: usize) -> Result<(), AllocError>
        ensures joined { OnOk result (self.new ≡ push place self.old) }
    {
        self.queue.push(place)?;
        self.wake();
        Ok(())
    }

    pub(crate) fn try_send(&mut self, place: usize) -> Result<PlaceReply, AllocError>
        ensures outcome { IfOk result (λ reply.
            (reply, self.new) ≡ outcome Move.TrySend place self.old) }
    {
        if self.is_closed() {
            return Ok(PlaceReply::Closed);
        }
        if self.has_no_room() {
            return Ok(PlaceReply::Full);
        }
        self.push(place)?;
        Ok(PlaceReply::Sent)
    }

    pub(crate) fn send(&mut self, place: usize) -> Result<PlaceReply, AllocError>
        ensures outcome { IfOk result (λ reply.
            (reply, self.new) ≡ outcome Move.Send place self.old) }
    {
        if self.is_closed() {
            return Ok(PlaceReply::Closed);
        }
        if self.has_no_room() {
            self.blocked.push(place)?;
            return Ok(PlaceReply::Pending);
        }
        self.push(place)?;
        Ok(PlaceReply::Sent)
    }

    pub(crate) fn poll_send(&mut self, place: usize) -> PlaceReply
        ensures outcome { (result, self.new) ≡ outcome Move.PollSend place self.old }
    {
        if !has_place(self.blocked.as_slice(), place) {
            PlaceReply::Accepted
        } else if self.is_closed() {
            self.take_back(place)
        } else {
            PlaceReply::Waiting
        }
    }

    pub(crate) fn withdraw_send(&mut self, place: usize) -> PlaceReply
        ensures outcome { (result, self.new) ≡ outcome Move.WithdrawSend place self.old }
    {
        if has_place(self.blocked.as_slice(), place) {
            self.take_back(place)
        } else {
            PlaceReply::Accepted
        }
    }

    fn take_back(&mut self, place: usize) -> PlaceReply
        ensures back { (result, self.new) ≡ take_back_outcome place self.old }
    {
        remove_place(&mut self.blocked, place);
        PlaceReply::Returned(self.is_closed())
    }
}

fn some_wait(receives: &[ParkedReceive]) -> bool
    ensures waits { result ≡ some_waits receives.now }
{
    for receive in receives {
        if receive.waits() {
            return true;
        }
    }
    false
}

fn has_place(places: &[usize], place: usize) -> bool
    ensures has { result ≡ list_any (λ p. p == place) places.now }
{
    for other in places {
        if *other == place {
            return true;
        }
    }
    false
}

fn remove_place<A: Allocator + Copy>(places: &mut Vec<usize, A>, place: usize)
    ensures removed { places.new.items ≡ without_send place places.old.items }
{
    for index in 0..places.len() {
        if places[index] == place {
            let _ = places.remove(index);
            return;
        }
    }
}
