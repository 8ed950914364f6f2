//! Receives of many messages, by a party.
ghost use Rattle.std.specs.Prelude.{◌≡◌, ◌+◌, ◌<◌, Ok, Err, IfOk, OnErr, vec_len, vec_capacity};
ghost use Rattle.flume_model.specs.declared.step.Step.TheVariants.{TryRecv};
ghost use Rattle.flume_calls.specs.declared.calls.receive.RecvNext.TheVariants.{Done};
ghost use Rattle.flume_calls.specs.ReceiveTurns.{after_try_recv};
ghost use Rattle.flume_actions.specs.Calls.{HasStepped};
ghost use Rattle.flume.specs.CallSteps as answer;
ghost use Rattle.flume.specs.ManyReceiveActions.{HasGot, HasReceivedAs, HasReceivedMany};
ghost use Rattle.flume.specs.ManyReceiveCalls.{Appends};

use super::{ChannelName, ChannelParty, Traced};
use crate::answers::receive_answer;
use crate::receiver::Receiver;
use crate::shared::Waits;
use flume_core::error::{RecvError, RecvTimeoutError, TryRecvError};
use flume_deadline::Deadline;
use std::alloc::Allocator;
use std::time::{Duration, Instant};

impl<T: Drop, R: Waits, A: Allocator + Copy, J: ChannelName> Receiver<T, R, A, Traced<T, A, J>> {
    /// As of a receiver without a trace. The party makes a `try_recv` for each message, or one that
    /// finds none. It makes no step if `buffer` can't grow, or if `most` is 0.
    pub fn try_recv_many(
        &self,
        me: &mut ChannelParty<T, J, A>,
        buffer: &mut Vec<T, A>,
        most: usize,
    ) -> Result<usize, TryRecvError>
        ensures called { HasGot me.old me.new buffer.old.items buffer.new.items }
        ensures made { HasReceivedMany (HasStepped TryRecv after_try_recv) most me.old
            buffer.old me.new buffer.new (answer.try_receive_as_turn result) }
        ensures appended { IfOk result (Appends most buffer.old.items buffer.new.items) }
        ensures unchanged { OnErr result (buffer.new.items ≡ buffer.old.items) }
        ensures none { most ≡ 0 → result ≡ Ok 0 }
        ensures no_memory { result ≡ Err TryRecvError.NoMemory
            → vec_capacity buffer.old < vec_len buffer.old + most }
    {
        self.try_recv_many_as(me, buffer, most)
    }

    /// As of a receiver without a trace. The party makes a receive, and if that gave a message, a
    /// `try_recv` for each one behind it. It makes no step if `most` is 0, or if there are messages
    /// and `buffer` can't grow.
    pub fn recv_many(
        &self,
        me: &mut ChannelParty<T, J, A>,
        buffer: &mut Vec<T, A>,
        most: usize,
    ) -> Result<usize, RecvError>
        ensures called { HasGot me.old me.new buffer.old.items buffer.new.items }
        ensures made { HasReceivedMany HasReceivedAs most me.old buffer.old me.new buffer.new
            (Done (answer.receive_as_timed result)) }
        ensures appended { IfOk result (Appends most buffer.old.items buffer.new.items) }
        ensures unchanged { OnErr result (buffer.new.items ≡ buffer.old.items) }
        ensures none { most ≡ 0 → result ≡ Ok 0 }
    {
        receive_answer(self.recv_many_until(me, buffer, most, Deadline::Never))
    }

    /// As of a receiver without a trace. The steps are as of `recv_many`.
    pub fn recv_many_deadline(
        &self,
        me: &mut ChannelParty<T, J, A>,
        buffer: &mut Vec<T, A>,
        most: usize,
        deadline: Instant,
    ) -> Result<usize, RecvTimeoutError>
        ensures called { HasGot me.old me.new buffer.old.items buffer.new.items }
        ensures made { HasReceivedMany HasReceivedAs most me.old buffer.old me.new buffer.new
            (Done result) }
        ensures appended { IfOk result (Appends most buffer.old.items buffer.new.items) }
        ensures unchanged { OnErr result (buffer.new.items ≡ buffer.old.items) }
        ensures none { most ≡ 0 → result ≡ Ok 0 }
    {
        self.recv_many_until(me, buffer, most, Deadline::At(deadline))
    }

    /// As of a receiver without a trace. The steps are as of `recv_many`.
    pub fn recv_many_timeout(
        &self,
        me: &mut ChannelParty<T, J, A>,
        buffer: &mut Vec<T, A>,
        most: usize,
        timeout: Duration,
    ) -> Result<usize, RecvTimeoutError>
        ensures called { HasGot me.old me.new buffer.old.items buffer.new.items }
        ensures made { HasReceivedMany HasReceivedAs most me.old buffer.old me.new buffer.new
            (Done result) }
        ensures appended { IfOk result (Appends most buffer.old.items buffer.new.items) }
        ensures unchanged { OnErr result (buffer.new.items ≡ buffer.old.items) }
        ensures none { most ≡ 0 → result ≡ Ok 0 }
    {
        let deadline = Deadline::after(&self.shared().rt, timeout);
        self.recv_many_until(me, buffer, most, deadline)
    }
}
