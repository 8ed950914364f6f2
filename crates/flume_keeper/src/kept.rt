//! A channel and its keeper.
ghost use Rattle.std.specs.Prelude.{◌≡◌, [], IsSome, None};
ghost use Rattle.flume_model.specs.Log.{opens};
ghost use Rattle.flume_state.specs.State.{State, new_state};
ghost use Rattle.flume_calls.specs.AtRest.{IsCallAtRest};
ghost use Rattle.flume_calls.specs.NoCallWaits.{NoCallWaits};
ghost use Rattle.flume_calls.specs.Polls.{AtMostOneStep, IsPollCall};
ghost use Rattle.flume_core.specs.Represents.{IsReachable, Represents};
ghost use Rattle.flume_keeper.specs.Keeps.{Did, LogsOf};

use crate::keeper::{Keeper, Made};
use crate::no_trace::NoTrace;
use crate::turns::{EndTurn, MessagePoll, MessageTurn};
use flume_calls::due::Bell;
use flume_calls::locked::Locked;
use std::alloc::Allocator;
use std::marker::Model;
use std::snapshot::Snapshot;

/// What a channel's lock protects: the channel, and what is kept of it. Contracts see the channel.
#[derive(Drop)]
pub struct Kept<T, S, A: Allocator, K: Keeper<T, A> = NoTrace> {
    pub locked: Locked<T, S, A>,
    pub(crate) keeper: K,
}

impl<T, S, A: Allocator, K: Keeper<T, A>> Model for Kept<T, S, A, K> {
    ghost use Rattle.std.specs.Coded.{codes};
    ghost use Rattle.flume_state.specs.Sends.{send_map_code};
    ghost use Rattle.flume_state.specs.State.{State};
    ghost use Rattle.flume_keeper.specs.Keeps.{LogsOf};

    ghost Value = { State T S };

    ghost coded = { Prim.hlevel (codes, send_map_code S.code) };

    ghost view = { λ kept. kept.locked };

    ghost invariant = { λ kept. K.fits kept.keeper (LogsOf kept.locked) };
}

impl<T: Drop, S: Drop, A: Allocator + Copy, K: Keeper<T, A>> Kept<T, S, A, K> {
    /// A new channel; unbounded if `None`. Doesn't allocate.
    #[inline(always)]
    pub fn new(alloc: A, capacity: Option<usize>, keeper: K) -> Self
        requires starts { (s : State T S) → Represents {A = A} (opens capacity 1) [] s
            → K.fits keeper (LogsOf s) }
        ensures state { result ≡ new_state (opens capacity 1) }
    {
        let locked = Locked::new(alloc, capacity);
        Kept { locked, keeper }
    }

    /// Makes the party's turn, and rings once for each ticket that is due then.
    #[inline(always)]
    pub fn make<C: MessageTurn<T, S, A>, B: Bell<S>>(
        &mut self,
        party: &mut K::Party,
        turn: C,
        bell: &mut B,
    ) -> C::Answer
        ensures reachable { IsReachable A self.old }
        ensures call { IsCallAtRest A B.rings (C.does turn) self.old bell.old self.new bell.new
            result }
        ensures answers { C.answers turn result }
        ensures did { Did K.did (C.makes turn) party.old result party.new }
    {
        self.locked.facts();
        let by = Snapshot::of(&turn);
        let before = Snapshot::of(&self.locked);
        let answer = self.locked.make(turn, bell);
        let made = Made {
            by,
            answer: Snapshot::of(&answer),
            before,
            after: Snapshot::of(&self.locked),
        };
        self.keeper.keep(party, &made);
        answer
    }

    /// As `Locked::make_without_bell`, of the party's turn.
    #[inline(always)]
    pub fn make_without_bell<C: MessageTurn<T, S, A>>(
        &mut self,
        party: &mut K::Party,
        turn: C,
    ) -> C::Answer
        requires no_call_waits { NoCallWaits self.old }
        requires one_step { (new : State T S) (answer : C.Answer)
            → C.does turn self.old new answer → AtMostOneStep A self.old new }
        ensures reachable { IsReachable A self.old }
        ensures does { C.does turn self.old self.new result }
        ensures answers { C.answers turn result }
        ensures did { Did K.did (C.makes turn) party.old result party.new }
    {
        self.locked.facts();
        let by = Snapshot::of(&turn);
        let before = Snapshot::of(&self.locked);
        let answer = self.locked.make_without_bell(turn);
        let made = Made {
            by,
            answer: Snapshot::of(&answer),
            before,
            after: Snapshot::of(&self.locked),
        };
        self.keeper.keep(party, &made);
        answer
    }

    /// Polls the party's call, and rings once for each ticket that is due then.
    #[inline(always)]
    pub fn poll<P: MessagePoll<T, S, A>, B: Bell<S>>(
        &mut self,
        party: &mut K::Party,
        call: &mut P,
        signal: &mut Option<S>,
        bell: &mut B,
    ) -> Option<P::Answer>
        ensures reachable { IsReachable A self.old }
        ensures call { IsPollCall A B.rings
            (λ between. P.polls call.old signal.old self.old between call.new result)
            self.old bell.old self.new bell.new }
        ensures pending { result ≡ None → IsSome signal.old }
        ensures did { Did K.did (P.makes call.old call.new) party.old result party.new }
    {
        self.locked.facts();
        let unpolled = Snapshot::of(&*call);
        let before = Snapshot::of(&self.locked);
        let answer = self.locked.poll(call, signal, bell);
        let made = Made {
            by: (unpolled, Snapshot::of(&*call)),
            answer: Snapshot::of(&answer),
            before,
            after: Snapshot::of(&self.locked),
        };
        self.keeper.keep(party, &made);
        answer
    }

    /// Makes nobody's turn, and rings once for each ticket that is due then.
    #[inline(always)]
    pub fn make_unowned<C: EndTurn<T, S, A>, B: Bell<S>>(
        &mut self,
        turn: C,
        bell: &mut B,
    ) -> C::Answer
        ensures reachable { IsReachable A self.old }
        ensures call { IsCallAtRest A B.rings (C.does turn) self.old bell.old self.new bell.new
            result }
        ensures answers { C.answers turn result }
    {
        self.locked.facts();
        let by = Snapshot::of(&turn);
        let before = Snapshot::of(&self.locked);
        let answer = self.locked.make(turn, bell);
        let made = Made {
            by,
            answer: Snapshot::of(&answer),
            before,
            after: Snapshot::of(&self.locked),
        };
        self.keeper.keep_unowned(&made);
        answer
    }
}
