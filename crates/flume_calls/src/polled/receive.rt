//! A receive that is polled.
ghost use Rattle.std.specs.Prelude.{◌≡◌, ◌≢◌, Some, None, Err, true, IsSome};
ghost use Rattle.std.specs.Option.{option_map};
ghost use Rattle.flume_core.specs.Waiting.{FindsNothing};
ghost use Rattle.flume_calls.specs.Polls.{AtMostOneStep};
ghost use Rattle.flume_calls.specs.PolledReceives.{ReceivePoll, finishes_receive};
ghost use Rattle.flume_calls.specs.PolledReceives.{ReceivePollSteps, receive_poll_leads};

use super::Polled;
use crate::calls::{AgainReceive, RecvCall, RecvNext};
use flume_core::chan::Chan;
use flume_core::error::{RecvError, RecvTimeoutError};
use flume_model::step::Kind;
use std::alloc::Allocator;

/// A receive that is polled. Polled again after it ended, it asks for the next message.
#[derive(Drop)]
pub struct PolledReceive {
    kind: Kind,
    call: Option<RecvCall>,
}

impl PolledReceive {
    /// A receive that parks as this kind of receiver. Doesn't allocate.
    /// ```
    /// let mut chan: Chan<u64, u32> = Chan::new(alloc, None);
    /// let mut receive = PolledReceive::new(Kind::Plain);
    /// receive.poll(&mut chan, &mut Some(10));      // None: it waits, with the signal 10
    /// chan.try_send(5);
    /// receive.poll(&mut chan, &mut None);          // Some(Ok(5))
    /// ```
    pub const fn new(kind: Kind) -> Self
        ensures new { result ≡ record { kind = kind; call = None } }
    {
        PolledReceive { kind, call: None }
    }

    /// The turn by which it leaves, which its owner has to make. `None`: it isn't parked.
    /// ```
    /// let mut chan: Chan<u64, u32> = Chan::new(alloc, None);
    /// let mut receive = PolledReceive::new(Kind::Plain);
    /// receive.poll(&mut chan, &mut Some(10));      // None: it waits, with the signal 10
    /// if let Some(leaves) = receive.end() {
    ///     leaves.apply(&mut chan);                 // Done(Err(Timeout)): it leaves
    /// }
    /// ```
    pub fn end<S>(&mut self) -> Option<AgainReceive<S>>
        ensures leaves { result ≡ option_map
            (λ call. record { call = call; last = true; signal = None }) self.old.call }
        ensures ended { self.new ≡ record self.old { call = None } }
    {
        let call = self.call.take()?;
        Some(AgainReceive {
            call,
            last: true,
            signal: None,
        })
    }

    #[inline(always)]
    fn finish_poll<T>(&mut self, next: RecvNext<T>, signalled: bool) -> Option<Result<T, RecvError>>
        requires in_time { next ≢ RecvNext.Done (Err RecvTimeoutError.Timeout) }
        ensures finishes { finishes_receive signalled next self.new.call result }
        ensures kind { self.new.kind ≡ self.old.kind }
    {
        let (call, answer) = match next {
            RecvNext::Done(Ok(message)) => (None, Some(Ok(message))),
            RecvNext::Done(Err(RecvTimeoutError::Disconnected)) => {
                (None, Some(Err(RecvError::Disconnected)))
            }
            RecvNext::Done(Err(RecvTimeoutError::NoMemory)) | RecvNext::NeedSignal => {
                (None, Some(Err(RecvError::NoMemory)))
            }
            RecvNext::Park(call) if signalled => (Some(call), None),
            RecvNext::Park(call) => (Some(call), Some(Err(RecvError::NoMemory))),
            RecvNext::Refused(call) => (Some(call), Some(Err(RecvError::NoMemory))),
            RecvNext::Done(Err(RecvTimeoutError::Timeout)) => unreachable!(),
        };
        self.call = call;
        answer
    }
}

impl PolledReceive {
    #[inline(always)]
    fn begin<T: Drop, S: Drop, A: Allocator + Copy>(
        &mut self,
        chan: &mut Chan<T, S, A>,
        signal: Option<S>,
    ) -> Option<Result<T, RecvError>>
        ensures row { ReceivePoll A self.old.kind None signal chan.old chan.new self.new.call
            result }
        ensures kind { self.new.kind ≡ self.old.kind }
        ensures step { AtMostOneStep A chan.old chan.new }
        ensures pending { result ≡ None → IsSome signal }
    {
        let Some(signal) = signal else {
            return self.finish_poll(RecvCall::first(chan), false);
        };
        self.finish_poll(RecvCall::park(self.kind, signal, chan), true)
    }

    #[inline(always)]
    fn ask<T: Drop, S: Drop, A: Allocator + Copy>(
        &mut self,
        call: RecvCall,
        chan: &mut Chan<T, S, A>,
        signal: Option<S>,
    ) -> Option<Result<T, RecvError>>
        ensures row { ReceivePoll A self.old.kind (Some call) signal chan.old chan.new self.new.call
            result }
        ensures kind { self.new.kind ≡ self.old.kind }
        ensures step { AtMostOneStep A chan.old chan.new }
        ensures pending { result ≡ None → IsSome signal }
    {
        let signalled = signal.is_some();
        if !signalled && chan.receive_would_wait() {
            self.call = Some(call);
            return Some(Err(RecvError::NoMemory));
        }
        self.finish_poll(call.again(chan, false, signal), signalled)
    }
}

impl<T: Drop, S: Drop, A: Allocator + Copy> Polled<T, S, A> for PolledReceive {
    type Answer = Result<T, RecvError>;

    ghost waits = { λ _. FindsNothing };

    ghost parked = { λ receive. receive.call };

    ghost polls = { λ old signal before after new answer. (new.kind ≡ old.kind)
        × ReceivePoll A old.kind old.call signal before after new.call answer };

    ghost makes = { λ old new made answer.
        ReceivePollSteps old.kind new.call answer old.call made };

    ghost leads = { λ old signal before after new answer polled. receive_poll_leads polled.1 };

    #[inline(always)]
    fn ticket(&self) -> Option<u64> {
        match &self.call {
            Some(call) => Some(call.ticket()),
            None => None,
        }
    }

    #[inline(always)]
    fn would_wait(&self, chan: &Chan<T, S, A>) -> bool {
        chan.receive_would_wait()
    }

    #[inline(always)]
    fn poll(
        &mut self,
        chan: &mut Chan<T, S, A>,
        signal: &mut Option<S>,
    ) -> Option<Result<T, RecvError>> {
        match self.call.take() {
            Some(call) => self.ask(call, chan, signal.take()),
            None => self.begin(chan, signal.take()),
        }
    }
}
