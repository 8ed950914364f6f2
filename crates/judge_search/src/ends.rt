//! The ends of a configuration's channel, and its capacity.
ghost use Rattle.std.specs.Prelude.{◌≡◌, IfOk, map};
ghost use Rattle.judge_search.specs.ByPlaces.{end_dropped, woken_if_waiting};
ghost use Rattle.judge_search.specs.Outcomes.{outcome};
ghost use Rattle.judge_search.specs.declared.step_of.Move.{Move};

use crate::configuration::{Configuration, ParkedReceive, Status};
use crate::place_reply::PlaceReply;
use crate::step_of::Move;
use std::alloc::{AllocError, Allocator};

impl<A: Allocator + Copy> Configuration<A> {
    pub(crate) fn clone_sender(&mut self, place: usize) -> PlaceReply
        ensures outcome { (result, self.new) ≡ outcome Move.CloneSender place self.old }
    {
        match self.senders {
            0 => PlaceReply::NoEnd,
            usize::MAX => PlaceReply::CountFull,
            count => {
                self.senders = count + 1;
                PlaceReply::Done
            }
        }
    }

    pub(crate) fn clone_receiver(&mut self, place: usize) -> PlaceReply
        ensures outcome { (result, self.new) ≡ outcome Move.CloneReceiver place self.old }
    {
        match self.receivers {
            0 => PlaceReply::NoEnd,
            usize::MAX => PlaceReply::CountFull,
            count => {
                self.receivers = count + 1;
                PlaceReply::Done
            }
        }
    }

    pub(crate) fn drop_sender(&mut self, place: usize) -> PlaceReply
        ensures outcome { (result, self.new) ≡ outcome Move.DropSender place self.old }
    {
        if self.senders == 0 {
            return PlaceReply::NoEnd;
        }
        let was_closed = self.is_closed();
        self.senders -= 1;
        self.drop_end(was_closed);
        PlaceReply::Done
    }

    pub(crate) fn drop_receiver(&mut self, place: usize) -> PlaceReply
        ensures outcome { (result, self.new) ≡ outcome Move.DropReceiver place self.old }
    {
        if self.receivers == 0 {
            return PlaceReply::NoEnd;
        }
        let was_closed = self.is_closed();
        self.receivers -= 1;
        self.drop_end(was_closed);
        PlaceReply::Done
    }

    fn drop_end(&mut self, was_closed: bool)
        ensures end_dropped { self.new ≡ end_dropped was_closed self.old }
    {
        if self.senders == 0 && self.receivers == 0 {
            self.queue.clear();
            self.blocked.clear();
            self.receives.clear();
        } else if !was_closed && self.is_closed() {
            wake_all(&mut self.receives);
        }
    }

    pub(crate) fn set_capacity(
        &mut self,
        capacity: usize,
        place: usize,
    ) -> Result<PlaceReply, AllocError>
        ensures outcome { IfOk result (λ reply.
            (reply, self.new) ≡ outcome (Move.SetCapacity capacity) place self.old) }
    {
        if self.capacity.is_none() {
            return Ok(PlaceReply::Unbounded);
        }
        if self.is_closed() {
            return Ok(PlaceReply::Ended);
        }
        self.capacity = Some(capacity);
        self.admit_all()?;
        Ok(PlaceReply::Done)
    }

    pub(crate) fn drain(&mut self, place: usize) -> Result<PlaceReply, AllocError>
        ensures outcome { IfOk result (λ reply.
            (reply, self.new) ≡ outcome Move.Drain place self.old) }
    {
        self.queue.clear();
        self.admit_all()?;
        Ok(PlaceReply::Drained)
    }
}

impl ParkedReceive {
    fn woken_if_waiting(self) -> ParkedReceive
        ensures woken { result ≡ woken_if_waiting self }
    {
        if self.waits() {
            ParkedReceive {
                status: Status::Woken,
                ..self
            }
        } else {
            self
        }
    }
}

fn wake_all(receives: &mut [ParkedReceive])
    ensures woken { receives.new ≡ map woken_if_waiting receives.old }
{
    for receive in receives {
        *receive = receive.woken_if_waiting();
    }
}
