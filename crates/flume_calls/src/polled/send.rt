//! A send that is polled.
ghost use Rattle.std.specs.Prelude.{◌≡◌, ◌≢◌, ℕ, Some, None, true, IsSome};
ghost use Rattle.flume_calls.specs.Polls.{AtMostOneStep};
ghost use Rattle.flume_calls.specs.PolledSends.{SendPoll, finishes_send, send_waits, ticket_of};
ghost use Rattle.flume_calls.specs.PolledSends.{SendPollSteps, send_poll_leads};

use super::Polled;
use crate::calls::{AgainSend, SendCall, SendNext};
use flume_core::chan::Chan;
use flume_core::error::{SendError, SendTimeoutError};
use std::alloc::Allocator;
use std::mem;

/// A send that is polled.
#[derive(Drop)]
pub enum PolledSend<T> {
    Unsent(T),
    /// It waits, or hasn't asked since its message was taken in.
    Parked(SendCall),
    /// It has ended. A poll answers `Ok`, and does nothing.
    Finished,
}

impl<T: Drop> PolledSend<T> {
    /// The turn, for its owner to make, that takes a blocked message back. Drops an unsent one.
    /// ```
    /// let mut chan: Chan<u64, u32> = Chan::new(alloc, Some(0));
    /// let mut send = PolledSend::Unsent(7);
    /// send.poll(&mut chan, &mut Some(10));         // None: it waits, with the signal 10
    /// if let Some(takes_back) = send.end() {
    ///     takes_back.apply(&mut chan);             // Done(Err(Timeout(7)))
    /// }
    /// ```
    pub fn end<S>(&mut self) -> Option<AgainSend<S>>
        ensures parked { (call : ℕ) → self.old ≡ PolledSend.Parked call
            → result ≡ Some (record { call = call; last = true; signal = None }) }
        ensures not_parked { ((call : ℕ) → self.old ≢ PolledSend.Parked call) → result ≡ None }
        ensures ended { self.new ≡ PolledSend.Finished }
    {
        match mem::replace(self, PolledSend::Finished) {
            PolledSend::Parked(call) => Some(AgainSend {
                call,
                last: true,
                signal: None,
            }),
            PolledSend::Unsent(_message) => None,
            PolledSend::Finished => None,
        }
    }

    #[inline(always)]
    fn finish_poll(&mut self, next: SendNext<T>) -> Option<Result<(), SendError<T>>>
        ensures finishes { finishes_send next self.new result }
    {
        let (send, answer) = match next {
            SendNext::Done(Ok(())) => (PolledSend::Finished, Some(Ok(()))),
            SendNext::Done(Err(SendTimeoutError::Disconnected(message))) => {
                (
                    PolledSend::Finished,
                    Some(Err(SendError::Disconnected(message))),
                )
            }
            SendNext::Done(
                Err(SendTimeoutError::NoMemory(message) | SendTimeoutError::Timeout(message)),
            )
            | SendNext::NeedSignal(message) => {
                (
                    PolledSend::Finished,
                    Some(Err(SendError::NoMemory(message))),
                )
            }
            SendNext::Park(call) => (PolledSend::Parked(call), None),
        };
        *self = send;
        answer
    }
}

impl<T: Drop> PolledSend<T> {
    #[inline(always)]
    fn offer<S: Drop, A: Allocator + Copy>(
        &mut self,
        message: T,
        chan: &mut Chan<T, S, A>,
        signal: Option<S>,
    ) -> Option<Result<(), SendError<T>>>
        ensures row { SendPoll A (PolledSend.Unsent message) signal chan.old chan.new self.new
            result }
        ensures step { AtMostOneStep A chan.old chan.new }
        ensures pending { result ≡ None → IsSome signal }
    {
        let Some(signal) = signal else {
            return self.finish_poll(SendCall::first(message, chan));
        };
        self.finish_poll(SendCall::park(message, signal, chan))
    }

    #[inline(always)]
    fn ask<S: Drop, A: Allocator + Copy>(
        &mut self,
        call: SendCall,
        chan: &mut Chan<T, S, A>,
        signal: Option<S>,
    ) -> Option<Result<(), SendError<T>>>
        ensures row { SendPoll A (PolledSend.Parked call) signal chan.old chan.new self.new
            result }
        ensures step { AtMostOneStep A chan.old chan.new }
        ensures pending { result ≡ None → IsSome signal }
    {
        let last = signal.is_none() && call.would_wait(chan);
        self.finish_poll(call.again(chan, last, signal))
    }
}

impl<T: Drop, S: Drop, A: Allocator + Copy> Polled<T, S, A> for PolledSend<T> {
    type Answer = Result<(), SendError<T>>;

    ghost waits = { send_waits };

    ghost parked = { ticket_of };

    ghost polls = { λ old signal before after new answer.
        SendPoll A old signal before after new answer };

    ghost makes = { λ old new made answer. SendPollSteps new answer old made };

    ghost leads = { λ old signal before after new answer polled. send_poll_leads polled };

    #[inline(always)]
    fn ticket(&self) -> Option<u64> {
        match self {
            PolledSend::Parked(call) => Some(call.ticket()),
            PolledSend::Unsent(_) | PolledSend::Finished => None,
        }
    }

    #[inline(always)]
    fn would_wait(&self, chan: &Chan<T, S, A>) -> bool {
        match self {
            PolledSend::Unsent(_) => chan.send_would_wait(),
            PolledSend::Parked(call) => call.would_wait(chan),
            PolledSend::Finished => false,
        }
    }

    #[inline(always)]
    fn poll(
        &mut self,
        chan: &mut Chan<T, S, A>,
        signal: &mut Option<S>,
    ) -> Option<Result<(), SendError<T>>> {
        match mem::replace(self, PolledSend::Finished) {
            PolledSend::Unsent(message) => self.offer(message, chan, signal.take()),
            PolledSend::Parked(call) => self.ask(call, chan, signal.take()),
            PolledSend::Finished => Some(Ok(())),
        }
    }
}
