//! Sends of many messages by a party.
ghost use Rattle.std.specs.Prelude.{◌≡◌, Vec, vec_items, Err};
ghost use Rattle.flume_deadline.specs.declared.Deadline.{Deadline};
ghost use Rattle.flume_deadline.specs.declared.Deadline.TheVariants.{Never};
ghost use Rattle.flume_deadline.specs.Deadlines.{IsAfter};
ghost use Rattle.flume_calls.specs.ManySends.{IsRest};
ghost use Rattle.flume.specs.CallSteps as answer;
ghost use Rattle.flume.specs.ManySendCalls.{IsRestAfterWait};
ghost use Rattle.flume.specs.ManySendSteps.{BatchOf, SendsManyOf, try_result_list, result_list};
ghost use Rattle.flume.specs.TracedSends.{HasSentMany, HasTriedMany, has_added};

use crate::answers::send_answer;
use crate::sender::Sender;
use crate::shared::Waits;
use flume_core::error::{SendError, SendTimeoutError, TrySendError};
use flume_deadline::Deadline;
use flume_keeper::{ChannelName, ChannelParty, Traced};
use std::alloc::Allocator;
use std::time::{Duration, Instant};

impl<T: Drop, R: Waits, A: Allocator + Copy, J: ChannelName> Sender<T, R, A, Traced<T, A, J>> {
    /// As of a sender without a trace. The steps are whole calls, which sent the messages in order.
    /// After an error they sent only the first ones, and the error has as many as the others. A
    /// reply of this channel was the reason for the error.
    pub fn try_send_many(
        &self,
        me: &mut ChannelParty<T, J, A>,
        messages: Vec<T, A>,
    ) -> Result<(), TrySendError<Vec<T, A>>>
        ensures called { HasTriedMany me.old messages.items me.new
            (try_result_list vec_items result) }
        ensures made { BatchOf has_added me.old messages.items me.new
            (try_result_list vec_items result) }
        ensures full { (rest : Vec T A) → result ≡ Err (TrySendError.Full rest)
            → IsRest messages.items rest.items }
        ensures disconnected { (rest : Vec T A) → result ≡ Err (TrySendError.Disconnected rest)
            → IsRest messages.items rest.items }
        ensures no_memory { (rest : Vec T A) → result ≡ Err (TrySendError.NoMemory rest)
            → IsRest messages.items rest.items }
    {
        self.try_send_many_as(me, messages)
    }

    /// As of a sender without a trace. The steps are as of `try_send_many`.
    pub fn send_many(
        &self,
        me: &mut ChannelParty<T, J, A>,
        messages: Vec<T, A>,
    ) -> Result<(), SendError<Vec<T, A>>>
        ensures called { HasSentMany me.old messages.items me.new
            (result_list vec_items (answer.send_as_timed result)) }
        ensures made { SendsManyOf has_added Never me.old messages.items me.new
            (result_list vec_items (answer.send_as_timed result)) }
        ensures disconnected { (rest : Vec T A) → result ≡ Err (SendError.Disconnected rest)
            → IsRestAfterWait messages.items rest.items }
        ensures no_memory { (rest : Vec T A) → result ≡ Err (SendError.NoMemory rest)
            → IsRest messages.items rest.items }
    {
        send_answer(self.send_many_until(me, messages, Deadline::Never))
    }

    /// As of a sender without a trace. The steps are as of `try_send_many`.
    pub fn send_many_deadline(
        &self,
        me: &mut ChannelParty<T, J, A>,
        messages: Vec<T, A>,
        deadline: Instant,
    ) -> Result<(), SendTimeoutError<Vec<T, A>>>
        ensures called { HasSentMany me.old messages.items me.new (result_list vec_items result) }
        ensures made { SendsManyOf has_added (Deadline.At deadline) me.old messages.items me.new
            (result_list vec_items result) }
        ensures timeout { (rest : Vec T A) → result ≡ Err (SendTimeoutError.Timeout rest)
            → IsRestAfterWait messages.items rest.items }
        ensures disconnected { (rest : Vec T A) → result ≡ Err (SendTimeoutError.Disconnected rest)
            → IsRestAfterWait messages.items rest.items }
        ensures no_memory { (rest : Vec T A) → result ≡ Err (SendTimeoutError.NoMemory rest)
            → IsRest messages.items rest.items }
    {
        self.send_many_until(me, messages, Deadline::At(deadline))
    }

    /// As of a sender without a trace. The steps are as of `try_send_many`.
    pub fn send_many_timeout(
        &self,
        me: &mut ChannelParty<T, J, A>,
        messages: Vec<T, A>,
        timeout: Duration,
    ) -> Result<(), SendTimeoutError<Vec<T, A>>>
        ensures called { HasSentMany me.old messages.items me.new (result_list vec_items result) }
        ensures made { (deadline : Deadline) × IsAfter timeout deadline
            × SendsManyOf has_added deadline me.old messages.items me.new
            (result_list vec_items result) }
        ensures timeout { (rest : Vec T A) → result ≡ Err (SendTimeoutError.Timeout rest)
            → IsRestAfterWait messages.items rest.items }
        ensures disconnected { (rest : Vec T A) → result ≡ Err (SendTimeoutError.Disconnected rest)
            → IsRestAfterWait messages.items rest.items }
        ensures no_memory { (rest : Vec T A) → result ≡ Err (SendTimeoutError.NoMemory rest)
            → IsRest messages.items rest.items }
    {
        let deadline = Deadline::after(&self.shared().rt, timeout);
        self.send_many_until(me, messages, deadline)
    }
}
