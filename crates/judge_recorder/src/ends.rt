//! The clones and drops of ends.
ghost use Rattle.std.specs.Prelude.{◌≡◌, IfOk, IfSome, OnErr, IsTrue};
ghost use Rattle.flume.specs.CallSteps.{HasReplied, upgrade_reply};
ghost use Rattle.judge_recorder.specs.Answers as spec;
ghost use Rattle.judge_recorder.specs.Records.{Records, is_complete};

use crate::recorder::Recorder;
use flume::error::NoMemory;
use flume::step::{Reply, Step};
use flume::{Receiver, Sender, Waits, WeakSender};
use judge_calls::call::{Answer, Call};
use std::alloc::{AllocError, Allocator};

impl<T: Copy + Drop, A: Allocator + Copy> Recorder<T, A> {
    /// Clones a sender. `AllocError`: no more can be counted, and the recorder isn't complete then.
    /// ```
    /// let other = recorder.clone_sender(&tx)?;
    /// ```
    pub fn clone_sender<R: Waits, C: Allocator + Copy>(
        &mut self,
        tx: &Sender<T, R, C>,
    ) -> Result<Sender<T, R, C>, AllocError>
        ensures recorded { IfOk result (λ _.
            Records self.old self.new Call.CloneSender Answer.Done) }
        ensures refused { OnErr result (IsTrue (is_complete self.new) → ⊥) }
        ensures same { IfOk result (λ copy. copy ≡ tx.now) }
        ensures made { IfOk result (λ _. HasReplied {T = T} {A = C} Step.CloneSender Reply.Done) }
    {
        let began = self.begin();
        let result: Result<_, _> = tx.clone();
        if result.is_ok() {
            self.record(began, Call::CloneSender, Answer::Done);
        } else {
            self.mark_incomplete();
        }
        result
    }

    /// Clones a receiver. `AllocError` as in `clone_sender`.
    /// ```
    /// let other = recorder.clone_receiver(&rx)?;
    /// ```
    pub fn clone_receiver<R: Waits, C: Allocator + Copy>(
        &mut self,
        rx: &Receiver<T, R, C>,
    ) -> Result<Receiver<T, R, C>, AllocError>
        ensures recorded { IfOk result (λ _.
            Records self.old self.new Call.CloneReceiver Answer.Done) }
        ensures refused { OnErr result (IsTrue (is_complete self.new) → ⊥) }
        ensures same { IfOk result (λ copy. copy ≡ rx.now) }
        ensures made { IfOk result (λ _. HasReplied {T = T} {A = C} Step.CloneReceiver Reply.Done) }
    {
        let began = self.begin();
        let result: Result<_, _> = rx.clone();
        if result.is_ok() {
            self.record(began, Call::CloneReceiver, Answer::Done);
        } else {
            self.mark_incomplete();
        }
        result
    }

    /// Calls `WeakSender::upgrade`, recorded as a clone. `NoMemory` is as `clone_sender`'s error.
    /// ```
    /// let weak = tx.downgrade()?;
    /// assert!(rt; recorder.upgrade(&weak)?.is_some());
    /// ```
    pub fn upgrade<R: Waits, C: Allocator + Copy>(
        &mut self,
        weak: &WeakSender<T, R, C>,
    ) -> Result<Option<Sender<T, R, C>>, NoMemory>
        ensures recorded { IfOk result (λ sender. Records self.old self.new Call.CloneSender
            (spec.upgrade_answer sender)) }
        ensures refused { OnErr result (IsTrue (is_complete self.new) → ⊥) }
        ensures same { IfOk result (λ sender. IfSome sender (λ s. s ≡ weak.now)) }
        ensures made { IfOk result (λ sender.
            HasReplied {T = T} {A = C} Step.CloneSender (upgrade_reply sender)) }
    {
        let began = self.begin();
        let result = weak.upgrade();
        match &result {
            Ok(Some(_)) => self.record(began, Call::CloneSender, Answer::Done),
            Ok(None) => self.record(began, Call::CloneSender, Answer::NoEnd),
            Err(_) => self.mark_incomplete(),
        }
        result
    }

    /// Drops a sender.
    /// ```
    /// recorder.drop_sender(tx);
    /// ```
    pub fn drop_sender<R: Waits, C: Allocator + Copy>(&mut self, tx: Sender<T, R, C>)
        ensures recorded { Records self.old self.new Call.DropSender Answer.Done }
    {
        let began = self.begin();
        drop(tx);
        self.record(began, Call::DropSender, Answer::Done);
    }

    /// Drops a receiver.
    /// ```
    /// recorder.drop_receiver(rx);
    /// ```
    pub fn drop_receiver<R: Waits, C: Allocator + Copy>(&mut self, rx: Receiver<T, R, C>)
        ensures recorded { Records self.old self.new Call.DropReceiver Answer.Done }
    {
        let began = self.begin();
        drop(rx);
        self.record(began, Call::DropReceiver, Answer::Done);
    }
}
