//! The sends.
ghost use Rattle.flume_deadline.specs.declared.Deadline.{Deadline};
ghost use Rattle.flume_deadline.specs.Deadlines.{IsAfter};
ghost use Rattle.flume_calls.specs.SendTurns.{after_try_send};
ghost use Rattle.flume.specs.CallSteps as answer;
ghost use Rattle.flume.specs.GateSteps.{Sends};
ghost use Rattle.flume.specs.LockedTurns.{HasMade};
ghost use Rattle.judge_recorder.specs.Answers as spec;
ghost use Rattle.judge_recorder.specs.Records.{Records};

use crate::answers::{send_answer, timed_send_answer, try_send_answer};
use crate::recorder::Recorder;
use flume::error::{SendError, SendTimeoutError, TrySendError};
use flume::step::Step;
use flume::{Sender, Waits};
use judge_calls::call::Call;
use std::alloc::Allocator;
use std::time::{Duration, Instant};

impl<T: Copy + Drop, A: Allocator + Copy> Recorder<T, A> {
    /// Calls `Sender::send`.
    /// ```
    /// assert_eq!(rt; recorder.send(&tx, 7), Ok(()));
    /// ```
    pub fn send<R: Waits, C: Allocator + Copy>(
        &mut self,
        tx: &Sender<T, R, C>,
        message: T,
    ) -> Result<(), SendError<T>>
        ensures recorded { Records self.old self.new (Call.Send message) (spec.send_answer result) }
        ensures made { Sends C Deadline.Never message (answer.send_as_timed result) }
    {
        let began = self.begin();
        let result = tx.send(message);
        self.record(began, Call::Send(message), send_answer(&result));
        result
    }

    /// Calls `Sender::send_deadline`.
    /// ```
    /// recorder.send(&tx, 7)?;
    /// let full = recorder.send_deadline(&tx, 8, Instant::now(&rt)?);
    /// assert_eq!(rt; full, Err(SendTimeoutError::Timeout(8)));
    /// ```
    pub fn send_deadline<R: Waits, C: Allocator + Copy>(
        &mut self,
        tx: &Sender<T, R, C>,
        message: T,
        deadline: Instant,
    ) -> Result<(), SendTimeoutError<T>>
        ensures recorded { Records self.old self.new (Call.SendTimeout message)
            (spec.timed_send_answer result) }
        ensures made { Sends C (Deadline.At deadline) message result }
    {
        let began = self.begin();
        let result = tx.send_deadline(message, deadline);
        self.record(
            began,
            Call::SendTimeout(message),
            timed_send_answer(&result),
        );
        result
    }

    /// Calls `Sender::send_timeout`.
    /// ```
    /// recorder.send(&tx, 7)?;
    /// let full = recorder.send_timeout(&tx, 8, Duration::from_millis(1));
    /// assert_eq!(rt; full, Err(SendTimeoutError::Timeout(8)));
    /// ```
    pub fn send_timeout<R: Waits, C: Allocator + Copy>(
        &mut self,
        tx: &Sender<T, R, C>,
        message: T,
        timeout: Duration,
    ) -> Result<(), SendTimeoutError<T>>
        ensures recorded { Records self.old self.new (Call.SendTimeout message)
            (spec.timed_send_answer result) }
        ensures made { (deadline : Deadline) × IsAfter timeout deadline
            × Sends C deadline message result }
    {
        let began = self.begin();
        let result = tx.send_timeout(message, timeout);
        self.record(
            began,
            Call::SendTimeout(message),
            timed_send_answer(&result),
        );
        result
    }

    /// Calls `Sender::try_send`.
    /// ```
    /// assert_eq!(rt; recorder.try_send(&tx, 7), Ok(()));
    /// assert_eq!(rt; recorder.try_send(&tx, 8), Err(TrySendError::Full(8)));
    /// ```
    pub fn try_send<R: Waits, C: Allocator + Copy>(
        &mut self,
        tx: &Sender<T, R, C>,
        message: T,
    ) -> Result<(), TrySendError<T>>
        ensures recorded { Records self.old self.new (Call.TrySend message)
            (spec.try_send_answer result) }
        ensures made { HasMade {A = C} (Step.TrySend message) after_try_send
            (answer.try_send_as_turn result) }
    {
        let began = self.begin();
        let result = tx.try_send(message);
        self.record(began, Call::TrySend(message), try_send_answer(&result));
        result
    }
}
