//! The start of a thread of a run.

use crate::caller::Caller;
use crate::ends::{TestReceiver, TestSender};
use crate::random::Random;
use flume::Waits;
use futures::test::MockTask;
use judge_recorder::Recorder;
use std::alloc::Global;

#[derive(Drop)]
pub(crate) struct CallerSetup<'h, R: Waits> {
    pub(crate) recorder: Recorder<u64>,
    pub(crate) sender: Option<TestSender<'h, R>>,
    pub(crate) receiver: Option<TestReceiver<'h, R>>,
    pub(crate) random: Random,
    pub(crate) calls_to_make: u64,
    pub(crate) message: u64,
}

impl<R: Waits> CallerSetup<'_, R> {
    pub(crate) fn serve(self, alloc: Global, task: &MockTask) -> Recorder<u64> {
        let CallerSetup {
            recorder,
            sender,
            receiver,
            random,
            calls_to_make,
            message,
        } = self;
        let caller = Caller::new(alloc, (recorder, random, message), &sender, &receiver);
        let mut recorder = caller.run(task, calls_to_make);
        if let Some(sender) = sender {
            recorder.drop_sender(sender);
        }
        if let Some(receiver) = receiver {
            recorder.drop_receiver(receiver);
        }
        recorder
    }
}
