//! Receives of many messages, under one lock.
ghost use Rattle.std.specs.Prelude.{◌≡◌, ◌≢◌, ◌⊎◌, ◌+◌, ◌<◌, true, Ok, Err, IfOk, OnErr};
ghost use Rattle.std.specs.Prelude.{vec_len, vec_capacity};
ghost use Rattle.flume_deadline.specs.declared.Deadline.TheVariants.{Never};
ghost use Rattle.flume.specs.CallSteps as answer;
ghost use Rattle.flume.specs.ManyReceiveCalls.{Appends, AnswersMany, IsntDone};
ghost use Rattle.flume.specs.ManyReceiveSteps.{ReceivesBatch, FindsNone, ReceivesMany};
ghost use Rattle.flume.specs.ManyReceiveGates.{many_state, FirstManyOf, TurnAndMoreOf};
ghost use Rattle.flume.specs.ManyReceiveGates.{ReceivesManyOf};

use crate::answers::{receive_answer, try_receive_answer};
use crate::receiver::Receiver;
use crate::shared::{Shared, Waits};
use crate::signal::{Parker, Signal};
use flume_calls::calls::{
    AgainReceive, FirstReceiveMany, ManyNext, ParkReceive, ReceiveAndMore, RecvCall, RecvNext,
};
use flume_calls::gates::{RecvGate, recv_over};
use flume_core::error::{RecvError, RecvTimeoutError, TryRecvError};
use flume_deadline::Deadline;
use flume_keeper::{Keeper, MessageTurn, NoParty};
use flume_model::step::Kind;
use std::alloc::Allocator;
use std::mem::replace;
use std::sync::Arc;
use std::time::{Duration, Instant};

impl<T: Drop, R: Waits, A: Allocator + Copy> Receiver<T, R, A> {
    /// Moves at most `most` messages to the end of `buffer`, and counts them. A blocked send is
    /// let in for each, and may come too. `NoMemory`: `buffer` can't grow. No error changes it.
    /// ```
    /// let (tx, rx) = flume::on(rt).unbounded()?;
    /// tx.send(1)?;
    /// tx.send(2)?;
    /// tx.send(3)?;
    /// let mut messages = Vec::new(rt.alloc());
    /// assert_eq!(rt; rx.try_recv_many(&mut messages, 2), Ok(2));
    /// assert_eq!(rt; rx.try_recv_many(&mut messages, 2), Ok(1));
    /// assert_eq!(rt; messages.as_slice(), [1, 2, 3].as_slice());
    /// assert_eq!(rt; rx.try_recv_many(&mut messages, 2), Err(TryRecvError::Empty));
    /// ```
    pub fn try_recv_many(&self, buffer: &mut Vec<T, A>, most: usize) -> Result<usize, TryRecvError>
        ensures made { 0 < most
            → ReceivesBatch A buffer.old.items buffer.new.items
            (answer.try_receive_as_turn result) }
        ensures appended { IfOk result (Appends most buffer.old.items buffer.new.items) }
        ensures unchanged { OnErr result (buffer.new.items ≡ buffer.old.items) }
        ensures none { most ≡ 0 → result ≡ Ok 0 }
        ensures no_memory { result ≡ Err TryRecvError.NoMemory
            → vec_capacity buffer.old < vec_len buffer.old + most }
    {
        self.try_recv_many_as(&mut NoParty, buffer, most)
    }

    /// As `try_recv_many`, but waits for the first message unless `most` is 0. `NoMemory` also if
    /// there was none to wait. If `buffer` can't grow after a wait, it takes what it has room for.
    /// ```
    /// let (tx, rx) = flume::on(rt).unbounded()?;
    /// tx.send(1)?;
    /// tx.send(2)?;
    /// let mut messages = Vec::new(rt.alloc());
    /// assert_eq!(rt; rx.recv_many(&mut messages, 64), Ok(2));
    /// assert_eq!(rt; messages.as_slice(), [1, 2].as_slice());
    /// drop(tx);
    /// assert_eq!(rt; rx.recv_many(&mut messages, 64), Err(RecvError::Disconnected));
    /// ```
    pub fn recv_many(&self, buffer: &mut Vec<T, A>, most: usize) -> Result<usize, RecvError>
        ensures made { 0 < most → ReceivesMany A buffer.old.items buffer.new.items
            (answer.receive_as_timed result) }
        ensures appended { IfOk result (Appends most buffer.old.items buffer.new.items) }
        ensures unchanged { OnErr result (buffer.new.items ≡ buffer.old.items) }
        ensures none { most ≡ 0 → result ≡ Ok 0 }
        ensures no_memory { result ≡ Err RecvError.NoMemory
            → (vec_capacity buffer.old < vec_len buffer.old + most) ⊎ FindsNone T A }
    {
        receive_answer(self.recv_many_until(&mut NoParty, buffer, most, Deadline::Never))
    }

    /// As `recv_many`, waiting up to the deadline, as `recv_deadline` does.
    /// ```
    /// let (_tx, rx) = flume::on(rt).unbounded::<u64>()?;
    /// let mut messages = Vec::new(rt.alloc());
    /// let now = Instant::now(&rt)?;
    /// let none = rx.recv_many_deadline(&mut messages, 64, now);
    /// assert_eq!(rt; none, Err(RecvTimeoutError::Timeout));
    /// ```
    pub fn recv_many_deadline(
        &self,
        buffer: &mut Vec<T, A>,
        most: usize,
        deadline: Instant,
    ) -> Result<usize, RecvTimeoutError>
        ensures made { 0 < most → ReceivesMany A buffer.old.items buffer.new.items result }
        ensures appended { IfOk result (Appends most buffer.old.items buffer.new.items) }
        ensures unchanged { OnErr result (buffer.new.items ≡ buffer.old.items) }
        ensures none { most ≡ 0 → result ≡ Ok 0 }
        ensures no_memory { result ≡ Err RecvTimeoutError.NoMemory
            → (vec_capacity buffer.old < vec_len buffer.old + most) ⊎ FindsNone T A }
    {
        self.recv_many_until(&mut NoParty, buffer, most, Deadline::At(deadline))
    }

    /// As `recv_many_deadline`, so long from now, as of `recv_timeout`.
    pub fn recv_many_timeout(
        &self,
        buffer: &mut Vec<T, A>,
        most: usize,
        timeout: Duration,
    ) -> Result<usize, RecvTimeoutError>
        ensures made { 0 < most → ReceivesMany A buffer.old.items buffer.new.items result }
        ensures appended { IfOk result (Appends most buffer.old.items buffer.new.items) }
        ensures unchanged { OnErr result (buffer.new.items ≡ buffer.old.items) }
        ensures none { most ≡ 0 → result ≡ Ok 0 }
        ensures no_memory { result ≡ Err RecvTimeoutError.NoMemory
            → (vec_capacity buffer.old < vec_len buffer.old + most) ⊎ FindsNone T A }
    {
        let deadline = Deadline::after(&self.shared().rt, timeout);
        self.recv_many_until(&mut NoParty, buffer, most, deadline)
    }
}

impl<T: Drop, R: Waits, A: Allocator + Copy, K: Keeper<T, A>> Receiver<T, R, A, K> {
    #[inline(always)]
    pub(crate) fn try_recv_many_as(
        &self,
        me: &mut K::Party,
        buffer: &mut Vec<T, A>,
        most: usize,
    ) -> Result<usize, TryRecvError>
        ensures did { 0 < most → FirstManyOf K.did (many_state me.old most buffer.old)
            (many_state me.new most buffer.new) (answer.try_receive_as_turn result) }
        ensures nothing { most ≡ 0 → (me.new ≡ me.old) × (buffer.new ≡ buffer.old) }
        ensures appended { IfOk result (Appends most buffer.old.items buffer.new.items) }
        ensures unchanged { OnErr result (buffer.new.items ≡ buffer.old.items) }
        ensures none { most ≡ 0 → result ≡ Ok 0 }
        ensures no_memory { result ≡ Err TryRecvError.NoMemory
            → vec_capacity buffer.old < vec_len buffer.old + most }
    {
        if most == 0 {
            return Ok(0);
        }
        try_receive_answer(self.shared().receive_at_once(me, buffer, most))
    }

    pub(crate) fn recv_many_until(
        &self,
        me: &mut K::Party,
        buffer: &mut Vec<T, A>,
        most: usize,
        deadline: Deadline,
    ) -> Result<usize, RecvTimeoutError>
        ensures did { 0 < most
            → ReceivesManyOf K.did most me.old buffer.old me.new buffer.new result }
        ensures nothing { most ≡ 0 → (me.new ≡ me.old) × (buffer.new ≡ buffer.old) }
        ensures appended { IfOk result (Appends most buffer.old.items buffer.new.items) }
        ensures unchanged { OnErr result (buffer.new.items ≡ buffer.old.items) }
        ensures none { most ≡ 0 → result ≡ Ok 0 }
        ensures in_time { deadline ≡ Never → result ≢ Err RecvTimeoutError.Timeout }
    {
        if most == 0 {
            return Ok(0);
        }
        let mut gate = ManyGate {
            shared: self.shared(),
            deadline,
            me,
            buffer,
            most,
        };
        recv_over(&self.shared().rt, &mut gate)
    }
}

impl<T: Drop, R: Waits, A: Allocator + Copy, K: Keeper<T, A>> Shared<T, R, A, K> {
    #[inline(always)]
    fn receive_at_once(
        &self,
        me: &mut K::Party,
        buffer: &mut Vec<T, A>,
        most: usize,
    ) -> RecvNext<usize>
        ensures did { FirstManyOf K.did (many_state me.old most buffer.old)
            (many_state me.new most buffer.new) result }
    {
        let list = replace(buffer, Vec::new(self.alloc));
        let ManyNext { buffer: list, next } = self.call_many(
            me,
            FirstReceiveMany { buffer: list, most },
        );
        *buffer = list;
        next
    }

    #[cold]
    #[inline(never)]
    fn receive_and_more<C>(
        &self,
        me: &mut K::Party,
        turn: C,
        buffer: &mut Vec<T, A>,
        most: usize,
    ) -> RecvNext<usize>
    where
        C: MessageTurn<T, Signal<A>, A, Answer = RecvNext<T>> + Drop,
        requires some { 0 < most }
        requires room { vec_len buffer.old < vec_capacity buffer.old }
        ensures answers { AnswersMany (C.answers turn) result }
        ensures did { TurnAndMoreOf K.did (C.makes turn) (many_state me.old most buffer.old)
            (many_state me.new most buffer.new) result }
        ensures room { IsntDone result → vec_len buffer.new < vec_capacity buffer.new }
    {
        let list = replace(buffer, Vec::new(self.alloc));
        let more = most - 1;
        let ManyNext { buffer: list, next } = self.call_many(
            me,
            ReceiveAndMore {
                turn,
                buffer: list,
                more,
            },
        );
        *buffer = list;
        next
    }
}

#[derive(Drop)]
struct ManyGate<'a, T, R: Waits, A: Allocator + Copy, K: Keeper<T, A>> {
    shared: &'a Shared<T, R, A, K>,
    deadline: Deadline,
    me: &'a mut K::Party,
    buffer: &'a mut Vec<T, A>,
    most: usize,
    ghost some: { 0 < most },
}

impl<T, R, A, K> RecvGate<usize> for ManyGate<'_, T, R, A, K>
where
    T: Drop,
    R: Waits,
    A: Allocator + Copy,
    K: Keeper<T, A>,
{
    ghost use Rattle.flume.specs.GateSteps.{MakesWaiter, WaitsUpTo};
    ghost use Rattle.flume.specs.ManyReceiveGates.{ParkManyOf, AgainManyOf, SameState};

    type Waiter = Arc<Parker, A>;

    type Signal = Signal<A>;

    ghost first_turn = { λ old new next. (new.deadline ≡ old.deadline)
        × (new.me.ghost_name ≡ old.me.ghost_name)
        × (new.buffer.ghost_name ≡ old.buffer.ghost_name)
        × FirstManyOf K.did (many_state old.me.now old.most old.buffer.now)
        (many_state new.me.now new.most new.buffer.now) next };

    ghost makes = { λ old new made. MakesWaiter old.deadline new.deadline made
        × (new.me.ghost_name ≡ old.me.ghost_name)
        × (new.buffer.ghost_name ≡ old.buffer.ghost_name)
        × SameState (many_state old.me.now old.most old.buffer.now)
        (many_state new.me.now new.most new.buffer.now) made };

    ghost parking_turn = { λ old new next. (new.deadline ≡ old.deadline)
        × (new.me.ghost_name ≡ old.me.ghost_name)
        × (new.buffer.ghost_name ≡ old.buffer.ghost_name)
        × ParkManyOf K.did (many_state old.me.now old.most old.buffer.now)
        (many_state new.me.now new.most new.buffer.now) next };

    ghost parked_turn = { λ old ticket last new next. (new.deadline ≡ old.deadline)
        × (new.me.ghost_name ≡ old.me.ghost_name)
        × (new.buffer.ghost_name ≡ old.buffer.ghost_name)
        × AgainManyOf K.did (many_state old.me.now old.most old.buffer.now) ticket last
        (many_state new.me.now new.most new.buffer.now) next };

    ghost waits = { λ old new expired. WaitsUpTo old.deadline new.deadline expired
        × (new.me.ghost_name ≡ old.me.ghost_name)
        × (new.buffer.ghost_name ≡ old.buffer.ghost_name)
        × SameState (many_state old.me.now old.most old.buffer.now)
        (many_state new.me.now new.most new.buffer.now) expired };

    ghost can_park = { λ gate. vec_len gate.buffer.now < vec_capacity gate.buffer.now };

    fn first(&mut self) -> RecvNext<usize> {
        self.shared.receive_at_once(self.me, self.buffer, self.most)
    }

    // With room for one message, so that the parked call can always take what it is woken for.
    fn arm(&mut self) -> Option<(Arc<Parker, A>, Signal<A>)> {
        self.buffer.try_reserve(1).ok()?;
        self.shared.new_parker()
    }

    fn park(&mut self, signal: Signal<A>) -> RecvNext<usize> {
        let turn = ParkReceive {
            kind: Kind::Block,
            signal,
        };
        self.shared
            .receive_and_more(self.me, turn, self.buffer, self.most)
    }

    fn again(&mut self, call: RecvCall, last: bool) -> RecvNext<usize> {
        let turn = AgainReceive {
            call,
            last,
            signal: None,
        };
        self.shared
            .receive_and_more(self.me, turn, self.buffer, self.most)
    }

    fn wait(&mut self, parker: &Arc<Parker, A>) -> bool {
        parker.wait_up_to(&self.shared.rt, self.deadline)
    }
}
