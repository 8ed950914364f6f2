//! What all ends of a channel share.
ghost use Rattle.std.specs.Prelude.{◌≡◌, None, []};
ghost use Rattle.futures.specs.Task.{Covers, Keeps};
ghost use Rattle.flume_model.specs.declared.step.Step.TheVariants as step;
ghost use Rattle.flume_model.specs.Log.{opens};
ghost use Rattle.flume_state.specs.State.{State};
ghost use Rattle.flume_core.specs.Represents.{Represents};
ghost use Rattle.flume_calls.specs.Polls.{AtMostOneStep};
ghost use Rattle.flume_calls.specs.Singles.{after_set_capacity};
ghost use Rattle.flume.specs.LockedPolls.{HasPolled};
ghost use Rattle.flume.specs.LockedTurns.{HasDone, HasMade};
ghost use Rattle.flume.specs.PartySteps.{DidStep};
ghost use Rattle.flume_actions.specs.Actions.{IsPart, IsWhole};
ghost use Rattle.flume_keeper.specs.Keeps.{Did, LogsOf};

use crate::backoff::{Backoff, FIRST_PAUSES, LOCK_TRIES, UNBOUNDED, pause};
use crate::signal::{Parker, Signal};
use crate::task::Task;
use flume_calls::due::Bell;
use flume_calls::single::SetCapacity;
use flume_core::error::CapacityError;
use flume_keeper::{
    ChannelName, ChannelParty, EndTurn, Keeper, Kept, MessagePoll, MessageTurn, NoTrace, Traced,
};
use futures::task::Context;
use std::alloc::{Allocator, Global};
use std::sync::atomic::{AtomicU64, Ordering};
use std::sync::{Arc, Mutex, MutexGuard, Wait};
use std::time::Clock;

/// What an end's runtime value gives: it waits, and reads a clock. The host's runtime is one.
pub trait Waits: Wait + Clock + Copy {}

impl<R: Wait + Clock + Copy> Waits for R {}

#[derive(Clone, Copy)]
pub(crate) struct SignalBell<R: Waits> {
    pub(crate) rt: R,
}

impl<R: Waits, A: Allocator> Bell<Signal<A>> for SignalBell<R> {
    ghost rings = { λ before _ _ after. after ≡ before };

    #[inline(never)]
    fn ring(&mut self, _ticket: u64, signal: &Signal<A>) {
        signal.fire(&self.rt);
    }
}

#[derive(Drop)]
pub(crate) struct Shared<T, R, A = Global, K = NoTrace>
where
    R: Waits,
    A: Allocator + Copy,
    K: Keeper<T, A>,
{
    state: Mutex<Kept<T, Signal<A>, A, K>>,
    pub(crate) id: u64,
    pub(crate) rt: R,
    pub(crate) alloc: A,
    // The capacity, or `UNBOUNDED`. Written under the lock, and read without.
    capacity_hint: AtomicU64,
}

impl<T: Drop, R: Waits, A: Allocator + Copy, K: Keeper<T, A>> Shared<T, R, A, K> {
    #[inline(always)]
    pub(crate) fn new(rt: R, alloc: A, id: u64, capacity: Option<usize>, keeper: K) -> Self
        requires starts { (s : State T (Signal A)) → Represents {A = A} (opens capacity 1) [] s
            → K.fits keeper (LogsOf s) }
        ensures number { result.id ≡ id }
    {
        Shared {
            state: Mutex::new(Kept::new(alloc, capacity, keeper)),
            id,
            rt,
            alloc,
            capacity_hint: AtomicU64::new(capacity.map_or(UNBOUNDED, |capacity| capacity as u64)),
        }
    }

    #[cold]
    #[inline(never)]
    pub(crate) fn new_parker(&self) -> Option<(Arc<Parker, A>, Signal<A>)> {
        let backoff = self.backoff();
        let parker = Arc::new(self.alloc, Parker::new(backoff.checks_once_parked)).ok()?;
        let copy = Arc::try_clone(&parker).ok()?;
        pause(backoff.pauses_before_parking);
        Some((parker, Signal::Parker(copy)))
    }

    pub(crate) fn checks(&self) -> u32 {
        self.backoff().checks_once_parked
    }

    fn backoff(&self) -> Backoff {
        Backoff::of(self.capacity_hint.load(Ordering::SeqCst))
    }

    #[inline(never)]
    pub(crate) fn set_capacity(
        &self,
        me: &mut K::Party,
        capacity: usize,
    ) -> Result<(), CapacityError>
        ensures made { HasMade {T = T} {A = A} (step.SetCapacity capacity)
            after_set_capacity result }
        ensures did { DidStep K.did (step.SetCapacity capacity) after_set_capacity me.old result
            me.new }
    {
        // Under one lock, so that of two calls at once one's capacity stays in both places.
        let mut guard = self.lock();
        let bell = &mut SignalBell { rt: self.rt };
        let answer = guard.make(me, SetCapacity { capacity }, bell);
        if answer.is_ok() {
            self.capacity_hint.store(capacity as u64, Ordering::SeqCst);
        }
        answer
    }

    #[inline(always)]
    pub(crate) fn lock(&self) -> MutexGuard<'_, Kept<T, Signal<A>, A, K>> {
        match self.state.try_lock() {
            Some(state) => state,
            None => self.wait_for_lock(),
        }
    }

    // Each try takes the lock's memory from the thread that has it, so the pauses get longer.
    #[cold]
    #[inline(never)]
    fn wait_for_lock(&self) -> MutexGuard<'_, Kept<T, Signal<A>, A, K>> {
        let mut pauses = FIRST_PAUSES;
        for _ in 0..LOCK_TRIES {
            pause(pauses);
            if let Some(state) = self.state.try_lock() {
                return state;
            }
            pauses = pauses.saturating_mul(2);
        }
        self.state.lock(&self.rt)
    }

    // The bells ring before the lock is let go: whoever takes it finds no ticket due.
    #[inline(always)]
    pub(crate) fn call<C: MessageTurn<T, Signal<A>, A>>(
        &self,
        me: &mut K::Party,
        turn: C,
    ) -> C::Answer
        ensures answers { C.answers turn result }
        ensures made { HasDone A (C.does turn) result }
        ensures did { Did K.did (C.makes turn) me.old result me.new }
    {
        let mut guard = self.lock();
        guard.make(me, turn, &mut SignalBell { rt: self.rt })
    }

    // If nobody is blocked or waits, one step makes no ticket due, and none is looked for.
    #[inline(always)]
    pub(crate) fn call_step<C: MessageTurn<T, Signal<A>, A>>(
        &self,
        me: &mut K::Party,
        turn: C,
    ) -> C::Answer
        requires one_step { (old new : State T (Signal A)) (answer : C.Answer)
            → C.does turn old new answer → AtMostOneStep A old new }
        ensures answers { C.answers turn result }
        ensures made { HasDone A (C.does turn) result }
        ensures did { Did K.did (C.makes turn) me.old result me.new }
    {
        let mut guard = match self.state.try_lock() {
            Some(guard) => guard,
            None => self.wait_for_lock(),
        };
        let kept = &mut *guard;
        if kept.locked.no_call_waits() {
            return kept.make_without_bell(me, turn);
        }
        kept.make(me, turn, &mut SignalBell { rt: self.rt })
    }

    #[cold]
    #[inline(never)]
    pub(crate) fn call_cold<C: MessageTurn<T, Signal<A>, A>>(
        &self,
        me: &mut K::Party,
        turn: C,
    ) -> C::Answer
        ensures answers { C.answers turn result }
        ensures made { HasDone A (C.does turn) result }
        ensures did { Did K.did (C.makes turn) me.old result me.new }
    {
        self.call(me, turn)
    }

    // Of several steps. Not inlined, since it isn't called for one message.
    #[inline(never)]
    pub(crate) fn call_many<C: MessageTurn<T, Signal<A>, A>>(
        &self,
        me: &mut K::Party,
        turn: C,
    ) -> C::Answer
        ensures answers { C.answers turn result }
        ensures made { HasDone A (C.does turn) result }
        ensures did { Did K.did (C.makes turn) me.old result me.new }
    {
        self.call(me, turn)
    }

    #[inline(always)]
    pub(crate) fn call_unowned<C: EndTurn<T, Signal<A>, A>>(&self, turn: C) -> C::Answer
        ensures answers { C.answers turn result }
        ensures made { HasDone A (C.does turn) result }
    {
        let mut guard = self.lock();
        guard.make_unowned(turn, &mut SignalBell { rt: self.rt })
    }

    #[inline(always)]
    pub(crate) fn poll<P: MessagePoll<T, Signal<A>, A>>(
        &self,
        me: &mut K::Party,
        call: &mut P,
        task: &Task,
        cx: &mut Context<'_>,
    ) -> Option<P::Answer>
        ensures polled { HasPolled A P.polls call.old call.new result }
        ensures did { Did K.did (P.makes call.old call.new) me.old result me.new }
        ensures registered { result ≡ None → Covers cx.new (λ s. s ≡ task.now.source.id) }
        ensures kept { Keeps cx.old cx.new }
    {
        let mut guard = self.lock();
        self.poll_locked(&mut guard, me, call, task, cx)
    }

    #[inline(always)]
    pub(crate) fn poll_locked<P: MessagePoll<T, Signal<A>, A>>(
        &self,
        kept: &mut Kept<T, Signal<A>, A, K>,
        me: &mut K::Party,
        call: &mut P,
        task: &Task,
        cx: &mut Context<'_>,
    ) -> Option<P::Answer>
        ensures polled { HasPolled A P.polls call.old call.new result }
        ensures did { Did K.did (P.makes call.old call.new) me.old result me.new }
        ensures registered { result ≡ None → Covers cx.new (λ s. s ≡ task.now.source.id) }
        ensures kept { Keeps cx.old cx.new }
    {
        let mut signal = None;
        if kept.locked.would_wait(call) {
            if let Some(waker) = task.waker(kept.locked.parked_signal(call), cx) {
                signal = Some(Signal::of_task(waker));
            }
        }
        kept.poll(me, call, &mut signal, &mut SignalBell { rt: self.rt })
    }
}

impl<T: Drop, R: Waits, A: Allocator + Copy, J: ChannelName> Shared<T, R, A, Traced<T, A, J>> {
    pub(crate) fn confirm(&self, me: &mut ChannelParty<T, J, A>)
        ensures party { me.new ≡ me.old }
        ensures part { IsPart J.identity.capacity me.old.actions }
    {
        self.lock().confirm(me);
    }

    pub(crate) fn settle(&self, me: &mut ChannelParty<T, J, A>) -> Option<usize>
        requires whole { me.old.parts ≡ J.identity.parts }
        ensures party { me.new ≡ me.old }
        ensures whole { IsWhole J.identity.capacity me.old.actions result }
    {
        self.lock().settle(me)
    }
}
