//! The slow judge: capacities, ends and queries.
use crate::slow_judge::{ReceiverState, SlowJudge};
use flume_model::step::{Reply, Step};

impl SlowJudge {
    pub(crate) fn set_capacity(&mut self, capacity: usize) -> Reply<u64> {
        if self.capacity.is_none() {
            return Reply::Unbounded;
        }
        if !self.is_open() {
            return Reply::Ended;
        }
        self.capacity = Some(capacity);
        self.queue_length = self.queue_length.max(self.most_queued());
        Reply::Done
    }

    pub(crate) fn count(&mut self, step: &Step<u64>) -> Reply<u64> {
        let was_open = self.is_open();
        let reply = match step {
            Step::CloneSender => add_end(&mut self.senders),
            Step::CloneReceiver => add_end(&mut self.receivers),
            Step::DropSender => drop_end(&mut self.senders),
            Step::DropReceiver => drop_end(&mut self.receivers),
            Step::Len => Reply::Number(self.queue_length),
            Step::IsEmpty => Reply::Flag(self.queue_length == 0),
            Step::IsFull => Reply::Flag(self.queue_length >= self.capacity.unwrap_or(usize::MAX)),
            Step::Capacity => Reply::Capacity(self.capacity),
            Step::SenderCount => Reply::Number(self.senders),
            Step::ReceiverCount => Reply::Number(self.receivers),
            _ => Reply::Flag(!was_open),
        };
        if was_open && !self.is_open() {
            self.wake_all();
        }
        if self.senders.max(self.receivers) == 0 {
            self.line.clear();
            self.queue_length = 0;
            self.parked.clear();
            self.live.clear();
        }
        reply
    }

    fn wake_all(&mut self) {
        for receiver in &mut self.parked {
            if matches!(receiver.state, ReceiverState::Waits) {
                receiver.state = ReceiverState::Woken;
            }
        }
    }
}

fn add_end(ends: &mut usize) -> Reply<u64> {
    match *ends {
        0 => Reply::NoEnd,
        usize::MAX => Reply::CountFull,
        _ => {
            *ends = ends.saturating_add(1);
            Reply::Done
        }
    }
}

fn drop_end(ends: &mut usize) -> Reply<u64> {
    if *ends == 0 {
        return Reply::NoEnd;
    }
    *ends = ends.saturating_sub(1);
    Reply::Done
}
