//! The moves of receives on a configuration.
ghost use Rattle.std.specs.Prelude.{◌≡◌, IfOk};
ghost use Rattle.std.specs.Result.{OnOk};
ghost use Rattle.judge_search.specs.ByPlaces.{wake, ask_again, leave, without_receive, with_front};
ghost use Rattle.judge_search.specs.ByPlaces.{closed_now};
ghost use Rattle.judge_search.specs.Outcomes.{outcome, poll_outcome_as, withdraw_outcome_as};
ghost use Rattle.judge_search.specs.Outcomes.{leaves_with, poll_line_outcome};
ghost use Rattle.judge_search.specs.Outcomes.{receive_outcome_from};
ghost use Rattle.judge_search.specs.declared.place_reply.PlaceReply.{PlaceReply};
ghost use Rattle.judge_search.specs.Receives.{receive_at, without_place};
ghost use Rattle.judge_search.specs.declared.step_of.Move.{Move};

use crate::configuration::{Configuration, ParkedReceive, Status};
use crate::place_reply::PlaceReply;
use crate::step_of::Move;
use crate::wakes::wake_round;
use flume_model::step::Kind;
use std::alloc::{AllocError, Allocator};

impl<A: Allocator + Copy> Configuration<A> {
    pub(crate) fn wake(&mut self)
        ensures woken { self.new ≡ wake self.old }
    {
        if self.queue.is_empty() {
            return;
        }
        if wake_round(&mut self.receives, self.queue[0]) {
            let _ = self.queue.remove(0);
        }
    }

    pub(crate) fn try_recv(&mut self, place: usize) -> Result<PlaceReply, AllocError>
        ensures outcome { IfOk result (λ reply.
            (reply, self.new) ≡ outcome Move.TryRecv place self.old) }
    {
        match self.take()? {
            Some(message) => Ok(PlaceReply::Got(message)),
            None if self.is_closed() => Ok(PlaceReply::Ended),
            None => Ok(PlaceReply::Empty),
        }
    }

    pub(crate) fn recv(&mut self, kind: Kind, place: usize) -> Result<PlaceReply, AllocError>
        ensures outcome { IfOk result (λ reply.
            (reply, self.new) ≡ outcome (Move.Recv kind) place self.old) }
    {
        match self.take()? {
            Some(message) => Ok(PlaceReply::Got(message)),
            None if self.is_closed() => Ok(PlaceReply::Ended),
            None => {
                self.receives.push(ParkedReceive {
                    place,
                    kind,
                    status: Status::Waiting,
                })?;
                Ok(PlaceReply::Parked)
            }
        }
    }

    pub(crate) fn poll(&mut self, place: usize) -> Result<PlaceReply, AllocError>
        ensures outcome { IfOk result (λ reply.
            (reply, self.new) ≡ outcome Move.Poll place self.old) }
    {
        match receive_at(self.receives.as_slice(), place) {
            None => Ok(PlaceReply::NoTicket),
            Some(receive) => self.poll_as(place, receive.kind, receive.status),
        }
    }

    fn poll_as(
        &mut self,
        place: usize,
        kind: Kind,
        status: Status,
    ) -> Result<PlaceReply, AllocError>
        ensures outcome { IfOk result (λ reply.
            (reply, self.new) ≡ poll_outcome_as place kind status self.old) }
    {
        match (kind, status) {
            (_, Status::Filled(message)) => {
                self.remove_receive(place);
                Ok(PlaceReply::Got(message))
            }
            (Kind::Block, Status::Waiting) => Ok(PlaceReply::Waiting),
            _ => self.look(place),
        }
    }

    fn look(&mut self, place: usize) -> Result<PlaceReply, AllocError>
        ensures outcome { IfOk result (λ reply.
            (reply, self.new) ≡ leaves_with place (poll_line_outcome place self.old)) }
    {
        if let Some(message) = self.take()? {
            self.remove_receive(place);
            return Ok(PlaceReply::Got(message));
        }
        if self.is_closed() {
            self.remove_receive(place);
            return Ok(PlaceReply::Ended);
        }
        self.ask_again(place)?;
        Ok(PlaceReply::Waiting)
    }

    fn ask_again(&mut self, place: usize) -> Result<(), AllocError>
        ensures asks_again { OnOk result (self.new ≡ ask_again place self.old) }
    {
        match receive_at(self.receives.as_slice(), place) {
            Some(receive) if receive.is_awake() => {
                self.remove_receive(place);
                self.receives.push(ParkedReceive {
                    status: Status::Waiting,
                    ..receive
                })?;
                Ok(())
            }
            _ => Ok(()),
        }
    }

    pub(crate) fn withdraw(&mut self, place: usize) -> Result<PlaceReply, AllocError>
        ensures outcome { IfOk result (λ reply.
            (reply, self.new) ≡ outcome Move.Withdraw place self.old) }
    {
        match receive_at(self.receives.as_slice(), place) {
            None => Ok(PlaceReply::NoTicket),
            Some(receive) => self.withdraw_as(place, receive.kind, receive.status),
        }
    }

    fn withdraw_as(
        &mut self,
        place: usize,
        kind: Kind,
        status: Status,
    ) -> Result<PlaceReply, AllocError>
        ensures outcome { IfOk result (λ reply.
            (reply, self.new) ≡ withdraw_outcome_as place kind status self.old) }
    {
        match (kind, status) {
            (_, Status::Filled(message)) => {
                self.remove_receive(place);
                Ok(PlaceReply::Got(message))
            }
            (Kind::Block, _) => self.withdraw_block(place),
            _ => {
                let closed = self.is_closed();
                self.leave(place);
                Ok(PlaceReply::Gone(closed))
            }
        }
    }

    fn withdraw_block(&mut self, place: usize) -> Result<PlaceReply, AllocError>
        ensures outcome { IfOk result (λ reply.
            (reply, self.new) ≡ leaves_with place
            (receive_outcome_from (with_front self.old).queue
            (PlaceReply.Gone (closed_now self.old), without_receive place self.old) self.old)) }
    {
        let front = self.take()?;
        let closed = self.is_closed();
        self.remove_receive(place);
        match front {
            Some(message) => Ok(PlaceReply::Got(message)),
            None => Ok(PlaceReply::Gone(closed)),
        }
    }

    fn leave(&mut self, place: usize)
        ensures leaves { self.new ≡ leave place self.old }
    {
        let found = receive_at(self.receives.as_slice(), place);
        self.remove_receive(place);
        if let Some(receive) = found {
            if receive.is_awake() {
                self.wake();
            }
        }
    }

    fn remove_receive(&mut self, place: usize)
        ensures removed { self.new ≡ without_receive place self.old }
    {
        remove_receive(&mut self.receives, place);
    }
}

pub(crate) fn receive_at(receives: &[ParkedReceive], place: usize) -> Option<ParkedReceive>
    ensures first { result ≡ receive_at place receives.now }
{
    for receive in receives {
        if receive.place == place {
            return Some(*receive);
        }
    }
    None
}

fn remove_receive<A: Allocator + Copy>(receives: &mut Vec<ParkedReceive, A>, place: usize)
    ensures removed { receives.new.items ≡ without_place place receives.old.items }
{
    for index in 0..receives.len() {
        if receives[index].place == place {
            let _ = receives.remove(index);
            return;
        }
    }
}
