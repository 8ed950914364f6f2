//! Calls of one step, or none, that never wait.
ghost use Rattle.std.specs.Prelude.{length};
ghost use Rattle.flume_model.specs.Entries.{waiting_count};
ghost use Rattle.flume_model.specs.Line.{blocked};
ghost use Rattle.flume_model.specs.Parked.{entries};
ghost use Rattle.flume_core.specs.PossibleReply.{PossibleReply};
ghost use Rattle.flume_calls.specs.Singles.{end_step, count_query_step, flag_query_step};
ghost use Rattle.flume.specs.CallSteps.{HasReplied};
ghost use Rattle.flume.specs.LockedTurns.{HasCounted, HasDescribed};

use crate::shared::{Shared, Waits};
use crate::signal::Signal;
use flume_calls::description::Description;
use flume_calls::single::{CapacityQuery, CountQuery, EndStep, FlagQuery};
use flume_keeper::Keeper;
use flume_model::step::{Reply, Step};
use std::alloc::Allocator;

impl<T: Drop, R: Waits, A: Allocator + Copy, K: Keeper<T, A>> Shared<T, R, A, K> {
    #[inline(always)]
    pub(crate) fn end_step(&self, step: EndStep) -> Reply<T, A>
        ensures made { HasReplied (end_step step) result }
        ensures possible { PossibleReply {T = T} (end_step step) result }
    {
        self.call_unowned(step)
    }

    #[inline(always)]
    pub(crate) fn number(&self, query: CountQuery) -> usize
        ensures made { HasReplied {T = T} {A = A} (count_query_step query) (Reply.Number result) }
    {
        self.call_unowned(query)
    }

    #[inline(always)]
    pub(crate) fn flag(&self, query: FlagQuery) -> bool
        ensures made { HasReplied {T = T} {A = A} (flag_query_step query) (Reply.Flag result) }
    {
        self.call_unowned(query)
    }

    #[inline(always)]
    pub(crate) fn capacity(&self) -> Option<usize>
        ensures made { HasReplied {T = T} {A = A} Step.Capacity (Reply.Capacity result) }
    {
        self.call_unowned(CapacityQuery)
    }

    pub(crate) fn describe(&self) -> Description
        ensures described { HasDescribed T A result }
    {
        let guard = self.lock();
        let locked = &guard.locked;
        locked.facts();
        locked.describe()
    }

    pub(crate) fn blocked_len(&self) -> usize
        ensures counted { HasCounted T A (λ opening log. length (blocked opening log)) result }
    {
        let guard = self.lock();
        let locked = &guard.locked;
        locked.facts();
        locked.blocked_len()
    }

    pub(crate) fn waiting_len(&self) -> usize
        ensures counted { HasCounted T A (λ opening log. waiting_count (entries opening log))
            result }
    {
        let guard = self.lock();
        let locked = &guard.locked;
        locked.facts();
        locked.waiting_len()
    }
}
