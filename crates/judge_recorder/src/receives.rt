//! The receives of one message.
ghost use Rattle.flume_deadline.specs.declared.Deadline.{Deadline};
ghost use Rattle.flume_deadline.specs.Deadlines.{IsAfter};
ghost use Rattle.flume_calls.specs.ReceiveTurns.{after_try_recv};
ghost use Rattle.flume.specs.CallSteps as answer;
ghost use Rattle.flume.specs.GateSteps.{Receives};
ghost use Rattle.flume.specs.LockedTurns.{HasMade};
ghost use Rattle.judge_recorder.specs.Answers as spec;
ghost use Rattle.judge_recorder.specs.Records.{Records};

use crate::answers::{receive_answer, timed_receive_answer, try_receive_answer};
use crate::recorder::Recorder;
use flume::error::{RecvError, RecvTimeoutError, TryRecvError};
use flume::step::Step;
use flume::{Receiver, Waits};
use judge_calls::call::Call;
use std::alloc::Allocator;
use std::time::{Duration, Instant};

impl<T: Copy + Drop, A: Allocator + Copy> Recorder<T, A> {
    /// Calls `Receiver::recv`.
    /// ```
    /// recorder.send(&tx, 7)?;
    /// assert_eq!(rt; recorder.recv(&rx), Ok(7));
    /// ```
    pub fn recv<R: Waits, C: Allocator + Copy>(
        &mut self,
        rx: &Receiver<T, R, C>,
    ) -> Result<T, RecvError>
        ensures recorded { Records self.old self.new Call.Recv (spec.receive_answer result) }
        ensures made { Receives C Deadline.Never (answer.receive_as_timed result) }
    {
        let began = self.begin();
        let result = rx.recv();
        self.record(began, Call::Recv, receive_answer(&result));
        result
    }

    /// Calls `Receiver::recv_deadline`.
    /// ```
    /// let none = recorder.recv_deadline(&rx, Instant::now(&rt)?);
    /// assert_eq!(rt; none, Err(RecvTimeoutError::Timeout));
    /// ```
    pub fn recv_deadline<R: Waits, C: Allocator + Copy>(
        &mut self,
        rx: &Receiver<T, R, C>,
        deadline: Instant,
    ) -> Result<T, RecvTimeoutError>
        ensures recorded { Records self.old self.new Call.RecvTimeout
            (spec.timed_receive_answer result) }
        ensures made { Receives C (Deadline.At deadline) result }
    {
        let began = self.begin();
        let result = rx.recv_deadline(deadline);
        self.record(began, Call::RecvTimeout, timed_receive_answer(&result));
        result
    }

    /// Calls `Receiver::recv_timeout`.
    /// ```
    /// let none = recorder.recv_timeout(&rx, Duration::from_millis(1));
    /// assert_eq!(rt; none, Err(RecvTimeoutError::Timeout));
    /// ```
    pub fn recv_timeout<R: Waits, C: Allocator + Copy>(
        &mut self,
        rx: &Receiver<T, R, C>,
        timeout: Duration,
    ) -> Result<T, RecvTimeoutError>
        ensures recorded { Records self.old self.new Call.RecvTimeout
            (spec.timed_receive_answer result) }
        ensures made { (deadline : Deadline) × IsAfter timeout deadline
            × Receives C deadline result }
    {
        let began = self.begin();
        let result = rx.recv_timeout(timeout);
        self.record(began, Call::RecvTimeout, timed_receive_answer(&result));
        result
    }

    /// Calls `Receiver::try_recv`.
    /// ```
    /// assert_eq!(rt; recorder.try_recv(&rx), Err(TryRecvError::Empty));
    /// ```
    pub fn try_recv<R: Waits, C: Allocator + Copy>(
        &mut self,
        rx: &Receiver<T, R, C>,
    ) -> Result<T, TryRecvError>
        ensures recorded { Records self.old self.new Call.TryRecv
            (spec.try_receive_answer result) }
        ensures made { HasMade {A = C} Step.TryRecv after_try_recv
            (answer.try_receive_as_turn result) }
    {
        let began = self.begin();
        let result = rx.try_recv();
        self.record(began, Call::TryRecv, try_receive_answer(&result));
        result
    }
}
