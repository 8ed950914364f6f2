//! The futures of a send and of a receive.
ghost use Rattle.std.specs.Prelude.{◌≡◌, Bool, true, false, Option, None};
ghost use Rattle.flume.specs.OwnedEnds.{end_of};
ghost use Rattle.flume.specs.declared.step.Kind.TheVariants.{Plain};
ghost use Rattle.flume_calls.specs.declared.polled.send.PolledSend.{PolledSend};
ghost use Rattle.judge_recorder.specs.declared.slot.FutureAnswer.{FutureAnswer};
ghost use Rattle.judge_recorder.specs.Answers.{future_send_answer, future_receive_answer};
ghost use Rattle.judge_recorder.specs.Records.{BeginsFuture};

use crate::recorder::Recorder;
pub use crate::slot::FutureAnswer;
use crate::slot::SlotWriter;
use flume::error::{RecvError, SendError};
use flume::polled::{RecvFut, SendFut};
use flume::{Receiver, Sender, Waits};
use futures::future::{Pending, pending};
use futures::task::{Context, Poll};
use futures::{Future, ready};
use judge_calls::call::Call;
use std::alloc::{Allocator, Global};

/// A future that makes one call: a send or a receive of `flume`.
/// ```
/// fn is_send<F: CallFuture<u64>>(send: &F, output: &F::Output) -> bool {
///     matches!(F::answer(output, false), Some(FutureAnswer::Sent))
/// }
/// ```
pub trait CallFuture<T>: Future {
    ghost returned: { Self.Output → Bool → Option (FutureAnswer T) };

    /// What the call returned, if it is over: a pending receive that is out of memory isn't.
    fn answer(output: &Self::Output, was_pending: bool) -> Option<FutureAnswer<T>>
        ensures value { result ≡ returned output.now was_pending };
}

impl<T: Copy + Drop, R: Waits, C: Allocator + Copy> CallFuture<T> for SendFut<'_, T, R, C> {
    ghost returned = { λ output _. future_send_answer output };

    fn answer(output: &Result<(), SendError<T>>, _was_pending: bool) -> Option<FutureAnswer<T>> {
        Some(match output {
            Ok(()) => FutureAnswer::Sent,
            Err(SendError::Disconnected(_)) => FutureAnswer::Disconnected,
            Err(SendError::NoMemory(_)) => FutureAnswer::NoMemory,
        })
    }
}

impl<T: Copy + Drop, R: Waits, C: Allocator + Copy> CallFuture<T> for RecvFut<'_, T, R, C> {
    ghost returned = { future_receive_answer };

    fn answer(output: &Result<T, RecvError>, was_pending: bool) -> Option<FutureAnswer<T>> {
        match output {
            Ok(message) => Some(FutureAnswer::Got(*message)),
            Err(RecvError::Disconnected) => Some(FutureAnswer::Disconnected),
            Err(RecvError::NoMemory) if was_pending => None,
            Err(RecvError::NoMemory) => Some(FutureAnswer::NoMemory),
        }
    }
}

/// A send or a receive as a future, recorded as of a thread of its own. Its call is open until it
/// is over, after which the future is pending, or until the future is dropped, which is recorded.
/// ```
/// assert_eq!(rt; block_on(&rt, recorder.send_async(&tx, 7))?, Ok(()));
/// ```
pub struct RecordedFuture<F: CallFuture<T>, T: Copy + Drop, A: Allocator = Global> {
    future: F,
    slot: Option<SlotWriter<T, A>>,
    was_pending: bool,
    is_over: bool,
    after: Pending<()>,
}

impl<F: CallFuture<T>, T: Copy + Drop, A: Allocator> RecordedFuture<F, T, A> {
    fn new(future: F, slot: Option<SlotWriter<T, A>>) -> Self
        ensures future { result.future ≡ future }
    {
        RecordedFuture {
            future,
            slot,
            was_pending: false,
            is_over: false,
            after: pending(),
        }
    }

    fn end(&mut self, answer: FutureAnswer<T>)
        ensures is_over { self.new.is_over ≡ true }
    {
        self.is_over = true;
        if let Some(slot) = &self.slot {
            slot.write(answer);
        }
    }
}

impl<F: CallFuture<T>, T: Copy + Drop, A: Allocator> Future for RecordedFuture<F, T, A> {
    type Output = F::Output;

    ghost can_poll = { λ f. f.is_over ≡ false → F.can_poll f.future };

    ghost needs = { λ f source. (f.is_over ≡ false) × F.needs f.future source };

    ghost gives = { λ f output. (f.is_over ≡ false) × F.gives f.future output };

    fn poll(&mut self, cx: &mut Context<'_>) -> Poll<F::Output> {
        if self.is_over {
            ready!(self.after.poll(cx));
            unreachable!()
        }
        match self.future.poll(cx) {
            Poll::Ready(output) => {
                if let Some(answer) = F::answer(&output, self.was_pending) {
                    self.end(answer);
                }
                Poll::Ready(output)
            }
            Poll::Pending => {
                self.was_pending = true;
                Poll::Pending
            }
        }
    }
}

impl<F: CallFuture<T>, T: Copy + Drop, A: Allocator> Drop for RecordedFuture<F, T, A> {
    fn drop(self) {
        let Self {
            future,
            slot,
            was_pending: _,
            is_over,
            after: _,
        } = self;
        drop(future);
        if let Some(slot) = slot {
            if !is_over {
                slot.write(FutureAnswer::Dropped);
            }
        }
    }
}

impl<T: Copy + Drop, A: Allocator + Copy> Recorder<T, A> {
    /// The future of `Sender::send_async`, whose call begins here.
    /// ```
    /// assert_eq!(rt; block_on(&rt, recorder.send_async(&tx, 7))?, Ok(()));
    /// ```
    pub fn send_async<'a, R: Waits, C: Allocator + Copy>(
        &mut self,
        tx: &'a Sender<T, R, C>,
        message: T,
    ) -> RecordedFuture<SendFut<'a, T, R, C>, T, A>
        ensures begun { BeginsFuture self.old self.new (Call.SendAsync message) }
        ensures channel { end_of result.future.sender ≡ tx.now }
        ensures message { result.future.send ≡ PolledSend.Unsent message }
    {
        let slot = self.begin_future(Call::SendAsync(message));
        RecordedFuture::new(tx.send_async(message), slot)
    }

    /// The future of `Receiver::recv_async`, whose call begins here.
    /// ```
    /// recorder.send(&tx, 7)?;
    /// assert_eq!(rt; block_on(&rt, recorder.recv_async(&rx))?, Ok(7));
    /// ```
    pub fn recv_async<'a, R: Waits, C: Allocator + Copy>(
        &mut self,
        rx: &'a Receiver<T, R, C>,
    ) -> RecordedFuture<RecvFut<'a, T, R, C>, T, A>
        ensures begun { BeginsFuture self.old self.new Call.RecvAsync }
        ensures channel { end_of result.future.receiver ≡ rx.now }
        ensures call { result.future.call ≡ record { kind = Plain; call = None } }
    {
        let slot = self.begin_future(Call::RecvAsync);
        RecordedFuture::new(rx.recv_async(), slot)
    }
}
