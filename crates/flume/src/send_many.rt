//! Sends of many messages, as many as the channel takes in under one lock.
ghost use Rattle.std.specs.Prelude.{◌≡◌, ◌≢◌, Vec, vec_items, Err};
ghost use Rattle.flume_deadline.specs.declared.Deadline.{Deadline};
ghost use Rattle.flume_deadline.specs.declared.Deadline.TheVariants.{Never};
ghost use Rattle.flume_deadline.specs.Deadlines.{IsAfter};
ghost use Rattle.flume_calls.specs.ManySends.{IsRest};
ghost use Rattle.flume.specs.CallSteps as answer;
ghost use Rattle.flume.specs.ManySendCalls.{IsRestAfterWait};
ghost use Rattle.flume.specs.ManySendSteps.{SendsBatch, SendsManyUpTo, BatchOf, SendsManyOf};
ghost use Rattle.flume.specs.ManySendSteps.{try_result_list, result_list};

use crate::answers::{put_back, send_answer, try_send_many_answer};
use crate::sender::Sender;
use crate::shared::Waits;
use flume_calls::calls::SendMany;
use flume_core::error::{SendError, SendTimeoutError, TrySendError};
use flume_deadline::Deadline;
use flume_keeper::{Keeper, NoParty};
use std::alloc::Allocator;
use std::collections::VecDeque;
use std::time::{Duration, Instant};

impl<T: Drop, R: Waits, A: Allocator + Copy> Sender<T, R, A> {
    /// Sends messages in order, as many as the channel takes in, with the errors of `try_send`. An
    /// error has those that weren't taken in, in order; the messages before them stay sent.
    /// ```
    /// let (tx, rx) = flume::on(rt).bounded(2)?;
    /// let full = tx.try_send_many(vec![in rt.alloc(); 1, 2, 3]?);
    /// assert_eq!(rt; full, Err(TrySendError::Full(vec![in rt.alloc(); 3]?)));
    /// assert_eq!(rt; rx.recv(), Ok(1));
    /// ```
    pub fn try_send_many(&self, messages: Vec<T, A>) -> Result<(), TrySendError<Vec<T, A>>>
        ensures made { SendsBatch A messages.items (try_result_list vec_items result) }
        ensures full { (rest : Vec T A) → result ≡ Err (TrySendError.Full rest)
            → IsRest messages.items rest.items }
        ensures disconnected { (rest : Vec T A) → result ≡ Err (TrySendError.Disconnected rest)
            → IsRest messages.items rest.items }
        ensures no_memory { (rest : Vec T A) → result ≡ Err (TrySendError.NoMemory rest)
            → IsRest messages.items rest.items }
    {
        self.try_send_many_as(&mut NoParty, messages)
    }

    /// Sends messages in order, as `send` does. Messages of other senders may come between. An
    /// error is as of `try_send_many`.
    /// ```
    /// let (tx, rx) = flume::on(rt).unbounded()?;
    /// tx.send_many(vec![in rt.alloc(); 1, 2, 3]?)?;
    /// assert_eq!(rt; rx.len(), 3);
    /// drop(rx);
    /// let closed = tx.send_many(vec![in rt.alloc(); 4, 5]?);
    /// assert_eq!(rt; closed, Err(SendError::Disconnected(vec![in rt.alloc(); 4, 5]?)));
    /// ```
    pub fn send_many(&self, messages: Vec<T, A>) -> Result<(), SendError<Vec<T, A>>>
        ensures made { SendsManyUpTo A Never messages.items
            (result_list vec_items (answer.send_as_timed result)) }
        ensures disconnected { (rest : Vec T A) → result ≡ Err (SendError.Disconnected rest)
            → IsRestAfterWait messages.items rest.items }
        ensures no_memory { (rest : Vec T A) → result ≡ Err (SendError.NoMemory rest)
            → IsRest messages.items rest.items }
    {
        send_answer(self.send_many_until(&mut NoParty, messages, Deadline::Never))
    }

    /// As `send_many`, up to the deadline, as `send_deadline` is: what is sent by then stays sent.
    /// ```
    /// let (tx, _rx) = flume::on(rt).bounded(1)?;
    /// let late = tx.send_many_deadline(vec![in rt.alloc(); 1, 2, 3]?, Instant::now(&rt)?);
    /// assert_eq!(rt; late, Err(SendTimeoutError::Timeout(vec![in rt.alloc(); 2, 3]?)));
    /// ```
    pub fn send_many_deadline(
        &self,
        messages: Vec<T, A>,
        deadline: Instant,
    ) -> Result<(), SendTimeoutError<Vec<T, A>>>
        ensures made { SendsManyUpTo A (Deadline.At deadline) messages.items
            (result_list vec_items result) }
        ensures timeout { (rest : Vec T A) → result ≡ Err (SendTimeoutError.Timeout rest)
            → IsRestAfterWait messages.items rest.items }
        ensures disconnected { (rest : Vec T A) → result ≡ Err (SendTimeoutError.Disconnected rest)
            → IsRestAfterWait messages.items rest.items }
        ensures no_memory { (rest : Vec T A) → result ≡ Err (SendTimeoutError.NoMemory rest)
            → IsRest messages.items rest.items }
    {
        self.send_many_until(&mut NoParty, messages, Deadline::At(deadline))
    }

    /// As `send_many_deadline`, so long from now, as of `send_timeout`.
    pub fn send_many_timeout(
        &self,
        messages: Vec<T, A>,
        timeout: Duration,
    ) -> Result<(), SendTimeoutError<Vec<T, A>>>
        ensures made { (deadline : Deadline) × IsAfter timeout deadline
            × SendsManyUpTo A deadline messages.items (result_list vec_items result) }
        ensures timeout { (rest : Vec T A) → result ≡ Err (SendTimeoutError.Timeout rest)
            → IsRestAfterWait messages.items rest.items }
        ensures disconnected { (rest : Vec T A) → result ≡ Err (SendTimeoutError.Disconnected rest)
            → IsRestAfterWait messages.items rest.items }
        ensures no_memory { (rest : Vec T A) → result ≡ Err (SendTimeoutError.NoMemory rest)
            → IsRest messages.items rest.items }
    {
        let deadline = Deadline::after(&self.shared().rt, timeout);
        self.send_many_until(&mut NoParty, messages, deadline)
    }
}

impl<T: Drop, R: Waits, A: Allocator + Copy, K: Keeper<T, A>> Sender<T, R, A, K> {
    pub(crate) fn try_send_many_as(
        &self,
        me: &mut K::Party,
        messages: Vec<T, A>,
    ) -> Result<(), TrySendError<Vec<T, A>>>
        ensures made { SendsBatch A messages.items (try_result_list vec_items result) }
        ensures full { (rest : Vec T A) → result ≡ Err (TrySendError.Full rest)
            → IsRest messages.items rest.items }
        ensures disconnected { (rest : Vec T A) → result ≡ Err (TrySendError.Disconnected rest)
            → IsRest messages.items rest.items }
        ensures no_memory { (rest : Vec T A) → result ≡ Err (TrySendError.NoMemory rest)
            → IsRest messages.items rest.items }
        ensures did { BatchOf K.did me.old messages.items me.new
            (try_result_list vec_items result) }
    {
        let messages = VecDeque::from_vec(messages);
        try_send_many_answer(self.shared().call_many(me, SendMany { messages }))
    }

    pub(crate) fn send_many_until(
        &self,
        me: &mut K::Party,
        messages: Vec<T, A>,
        deadline: Deadline,
    ) -> Result<(), SendTimeoutError<Vec<T, A>>>
        ensures timeout { (rest : Vec T A) → result ≡ Err (SendTimeoutError.Timeout rest)
            → IsRestAfterWait messages.items rest.items }
        ensures disconnected { (rest : Vec T A) → result ≡ Err (SendTimeoutError.Disconnected rest)
            → IsRestAfterWait messages.items rest.items }
        ensures no_memory { (rest : Vec T A) → result ≡ Err (SendTimeoutError.NoMemory rest)
            → IsRest messages.items rest.items }
        ensures in_time { deadline ≡ Never → (rest : Vec T A)
            → result ≢ Err (SendTimeoutError.Timeout rest) }
        ensures did { SendsManyOf K.did deadline me.old messages.items me.new
            (result_list vec_items result) }
    {
        let mut left = VecDeque::from_vec(messages);
        while !left.is_empty() {
            left = match self.shared().call_many(me, SendMany { messages: left }) {
                Ok(()) => return Ok(()),
                Err(TrySendError::Full(mut full)) => {
                    let Some(first) = full.pop_front() else {
                        unreachable!();
                    };
                    match self.send_to_full_until(me, first, deadline) {
                        Ok(()) => full,
                        Err(ended) => return Err(put_back(full, ended)),
                    }
                }
                Err(TrySendError::Disconnected(rest)) => {
                    return Err(SendTimeoutError::Disconnected(rest.into_vec()));
                }
                Err(TrySendError::NoMemory(rest)) => {
                    return Err(SendTimeoutError::NoMemory(rest.into_vec()));
                }
            };
        }
        Ok(())
    }
}
