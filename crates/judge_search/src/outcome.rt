//! Makes a move of a call.
ghost use Rattle.std.specs.Prelude.{◌≡◌, IfSome, IfOk};
ghost use Rattle.judge_search.specs.Outcomes.{outcome};

use crate::configuration::Configuration;
use crate::place_reply::PlaceReply;
use crate::step_of::Move;
use std::alloc::{AllocError, Allocator};

impl<A: Allocator + Copy> Configuration<A> {
    /// The reply to a move of the call at a place; `None` if an allocation failed.
    pub fn make(&mut self, mv: Move, place: usize) -> Option<PlaceReply>
        ensures outcome { IfSome result (λ reply. (reply, self.new) ≡ outcome mv place self.old) }
    {
        self.answer(mv, place).ok()
    }

    fn answer(&mut self, mv: Move, place: usize) -> Result<PlaceReply, AllocError>
        ensures outcome { IfOk result (λ reply. (reply, self.new) ≡ outcome mv place self.old) }
    {
        match mv {
            Move::TrySend => self.try_send(place),
            Move::Send => self.send(place),
            Move::PollSend => Ok(self.poll_send(place)),
            Move::WithdrawSend => Ok(self.withdraw_send(place)),
            Move::TryRecv => self.try_recv(place),
            Move::Recv(kind) => self.recv(kind, place),
            Move::Poll => self.poll(place),
            Move::Withdraw => self.withdraw(place),
            Move::Drain => self.drain(place),
            Move::CloneSender => Ok(self.clone_sender(place)),
            Move::CloneReceiver => Ok(self.clone_receiver(place)),
            Move::DropSender => Ok(self.drop_sender(place)),
            Move::DropReceiver => Ok(self.drop_receiver(place)),
            Move::SetCapacity(capacity) => self.set_capacity(capacity, place),
            Move::Len => Ok(PlaceReply::Number(self.queue.len())),
            Move::IsEmpty => Ok(PlaceReply::Flag(self.queue.is_empty())),
            Move::IsFull => Ok(PlaceReply::Flag(self.is_full())),
            Move::Capacity => Ok(PlaceReply::Capacity(self.capacity)),
            Move::SenderCount => Ok(PlaceReply::Number(self.senders)),
            Move::ReceiverCount => Ok(PlaceReply::Number(self.receivers)),
            Move::IsDisconnected => Ok(PlaceReply::Flag(self.is_closed())),
        }
    }
}
