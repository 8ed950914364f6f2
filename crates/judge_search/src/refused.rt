//! Which moves may be refused memory or a ticket.
ghost use Rattle.std.specs.Prelude.{◌≡◌};
ghost use Rattle.judge_search.specs.Receives.{receive_at};
ghost use Rattle.judge_search.specs.Refusals.{is_looking, looks_at_line, may_be_refused};
ghost use Rattle.judge_search.specs.Refusals.{some_blocked};
ghost use Rattle.judge_search.specs.Refusals.{some_queued};

use crate::configuration::{Configuration, ParkedReceive, Status};
use crate::receives::receive_at;
use crate::step_of::Move;
use flume_model::step::Kind;
use std::alloc::Allocator;

impl<A: Allocator + Copy> Configuration<A> {
    pub(crate) fn may_refuse(&self, mv: Move, place: usize) -> bool
        ensures may { result ≡ may_be_refused mv place self.now }
    {
        match mv {
            Move::TrySend => !self.is_closed() && !self.has_no_room(),
            Move::Send => !self.is_closed(),
            Move::TryRecv => self.some_blocked(),
            Move::Recv(_) => self.some_blocked() || (!self.some_queued() && !self.is_closed()),
            Move::Poll => self.some_blocked() && self.is_looking(place),
            Move::Drain => self.some_queued(),
            _ => false,
        }
    }

    fn some_blocked(&self) -> bool
        ensures some { result ≡ some_blocked self.now }
    {
        !self.blocked.is_empty()
    }

    fn some_queued(&self) -> bool
        ensures some { result ≡ some_queued self.now }
    {
        !self.queue.is_empty()
    }

    fn is_looking(&self, place: usize) -> bool
        ensures looks_at_line { result ≡ is_looking (receive_at place self.now.receives) }
    {
        match receive_at(self.receives.as_slice(), place) {
            Some(receive) => receive.looks_at_line(),
            None => false,
        }
    }
}

impl ParkedReceive {
    fn looks_at_line(&self) -> bool
        ensures looks_at_line { result ≡ looks_at_line self.now.kind self.now.status }
    {
        match self.status {
            Status::Filled(_) => false,
            Status::Waiting | Status::Woken => !matches!(self.kind, Kind::Block),
        }
    }
}
