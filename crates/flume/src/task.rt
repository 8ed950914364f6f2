//! The task that polls a call.
ghost use Rattle.std.specs.Prelude.{◌≡◌};
ghost use Rattle.futures.specs.Task.{IsArmed, Hears, Keeps};
ghost use Rattle.flume.specs.LockedPolls.{LeavesWaker};

use crate::signal::Signal;
use futures::task::{Context, Poll, Source, Waker};
use std::alloc::Allocator;

#[derive(Drop)]
pub(crate) struct Task {
    // It has no bytes. The channel has none for its tasks, since a contract sees only the number of
    // an end.
    source: Source,
}

impl Task {
    pub(crate) fn new() -> Self {
        Task {
            source: Source::new(),
        }
    }

    #[inline(never)]
    pub(crate) fn waker<A: Allocator>(
        &self,
        parked: Option<&Signal<A>>,
        cx: &mut Context<'_>,
    ) -> Option<Waker>
        ensures is_armed { IsArmed cx.new }
        ensures hears { Hears cx.new self.now.source.id }
        ensures kept { Keeps cx.old cx.new }
        ensures waker { LeavesWaker cx.old cx.new result }
    {
        // `register` leaves one of the same task: if it were dropped, the task would wake itself.
        let mut waker = match parked {
            Some(Signal::Task(signal)) => signal.take(),
            _ => None,
        };
        let _pending: Poll<()> = cx.register(&self.source, &mut waker);
        waker
    }
}
