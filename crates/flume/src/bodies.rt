//! What a call does: one body for the ends that keep a trace and for those that keep none.
ghost use Rattle.std.specs.Prelude.{◌≡◌, ◌≢◌, Err};
ghost use Rattle.flume_model.specs.declared.step.Step.TheVariants.{TrySend, TryRecv, Drain};
ghost use Rattle.flume_calls.specs.ReceiveTurns.{after_try_recv};
ghost use Rattle.flume_calls.specs.SendTurns.{after_try_send};
ghost use Rattle.flume.specs.CallSteps as answer;
ghost use Rattle.flume.specs.GateSteps.{Receives, Sends};
ghost use Rattle.flume.specs.Iterators.{after_drain};
ghost use Rattle.flume.specs.LockedTurns.{HasMade};
ghost use Rattle.flume.specs.ManyReceiveSteps.{FindsNone};
ghost use Rattle.flume.specs.PartySteps.{DidStep, FirstReceiveOf, FirstSendOf};
ghost use Rattle.flume.specs.PartySteps.{ReceivesOf, SendsOf, SendsToFullOf};

use crate::answers::{receive_answer, send_answer, try_receive_answer, try_send_answer};
use crate::drain::Drain as Drained;
use crate::gate::Gate;
use crate::receiver::Receiver;
use crate::sender::Sender;
use crate::shared::Waits;
use crate::signal::Signal;
use flume_calls::calls::{FirstReceive, FirstSend, RecvNext, SendNext};
use flume_calls::gates::waiting_send;
use flume_calls::single::DrainQueue;
use flume_core::error::{
    NoMemory, RecvError, RecvTimeoutError, SendError, SendTimeoutError, TryRecvError, TrySendError,
};
use flume_deadline::Deadline;
use flume_keeper::Keeper;
use std::alloc::Allocator;

impl<T: Drop, R: Waits, A: Allocator + Copy, K: Keeper<T, A>> Sender<T, R, A, K> {
    #[inline(always)]
    pub(crate) fn try_send_as(&self, me: &mut K::Party, message: T) -> Result<(), TrySendError<T>>
        ensures made { HasMade {A = A} (TrySend message) after_try_send
            (answer.try_send_as_turn result) }
        ensures full { (back : T) → result ≡ Err (TrySendError.Full back) → back ≡ message }
        ensures disconnected { (back : T) → result ≡ Err (TrySendError.Disconnected back)
            → back ≡ message }
        ensures no_memory { (back : T) → result ≡ Err (TrySendError.NoMemory back)
            → back ≡ message }
        ensures did { FirstSendOf K.did me.old message me.new (answer.try_send_as_turn result) }
    {
        try_send_answer(self.shared().call_step(me, FirstSend { message }))
    }

    #[inline(always)]
    pub(crate) fn send_as(&self, me: &mut K::Party, message: T) -> Result<(), SendError<T>>
        ensures made { Sends A Deadline.Never message (answer.send_as_timed result) }
        ensures no_memory { (back : T) → result ≡ Err (SendError.NoMemory back) → back ≡ message }
        ensures did { SendsOf K.did me.old message me.new (answer.send_as_timed result) }
    {
        match self.shared().call_step(me, FirstSend { message }) {
            SendNext::Done(result) => send_answer(result),
            SendNext::NeedSignal(message) => self.send_to_full(me, message),
            SendNext::Park(_) => unreachable!(),
        }
    }

    #[cold]
    #[inline(never)]
    fn send_to_full(&self, me: &mut K::Party, message: T) -> Result<(), SendError<T>>
        requires full { HasMade {A = A} (TrySend message) after_try_send
            (SendNext.NeedSignal message) }
        ensures made { Sends A Deadline.Never message (answer.send_as_timed result) }
        ensures no_memory { (back : T) → result ≡ Err (SendError.NoMemory back) → back ≡ message }
        ensures did { SendsToFullOf K.did me.old message me.new (answer.send_as_timed result) }
    {
        send_answer(self.send_to_full_until(me, message, Deadline::Never))
    }

    // A send, after a first turn that found the channel full.
    #[inline(always)]
    pub(crate) fn send_to_full_until(
        &self,
        me: &mut K::Party,
        message: T,
        deadline: Deadline,
    ) -> Result<(), SendTimeoutError<T>>
        requires full { HasMade {A = A} (TrySend message) after_try_send
            (SendNext.NeedSignal message) }
        ensures made { Sends A deadline message result }
        ensures no_memory { (back : T) → result ≡ Err (SendTimeoutError.NoMemory back)
            → back ≡ message }
        ensures did { SendsToFullOf K.did me.old message me.new result }
    {
        let shared = self.shared();
        let mut gate = Gate::new(shared, deadline, me);
        waiting_send(&shared.rt, &mut gate, message)
    }

    pub(crate) fn send_until(
        &self,
        me: &mut K::Party,
        message: T,
        deadline: Deadline,
    ) -> Result<(), SendTimeoutError<T>>
        ensures made { Sends A deadline message result }
        ensures no_memory { (back : T) → result ≡ Err (SendTimeoutError.NoMemory back)
            → back ≡ message }
        ensures did { SendsOf K.did me.old message me.new result }
    {
        match self.shared().call_step(me, FirstSend { message }) {
            SendNext::Done(result) => result,
            SendNext::NeedSignal(message) => self.send_to_full_until(me, message, deadline),
            SendNext::Park(_) => unreachable!(),
        }
    }
}

impl<T: Drop, R: Waits, A: Allocator + Copy, K: Keeper<T, A>> Receiver<T, R, A, K> {
    #[inline(always)]
    pub(crate) fn try_recv_as(&self, me: &mut K::Party) -> Result<T, TryRecvError>
        ensures made { HasMade {A = A} TryRecv after_try_recv
            (answer.try_receive_as_turn result) }
        ensures never_no_memory { result ≢ Err TryRecvError.NoMemory }
        ensures did { FirstReceiveOf K.did me.old me.new (answer.try_receive_as_turn result) }
    {
        try_receive_answer(self.shared().call_step(me, FirstReceive))
    }

    #[inline(always)]
    pub(crate) fn recv_as(&self, me: &mut K::Party) -> Result<T, RecvError>
        ensures made { Receives A Deadline.Never (answer.receive_as_timed result) }
        ensures did { ReceivesOf K.did me.old me.new (answer.receive_as_timed result) }
    {
        match self.shared().call_step(me, FirstReceive) {
            RecvNext::Done(result) => receive_answer(result),
            RecvNext::NeedSignal => self.recv_from_empty(me),
            RecvNext::Park(_) | RecvNext::Refused(_) => unreachable!(),
        }
    }

    #[cold]
    #[inline(never)]
    fn recv_from_empty(&self, me: &mut K::Party) -> Result<T, RecvError>
        requires none { FindsNone T A }
        requires tried { (start : K.Party) × FirstReceiveOf K.did start me.old RecvNext.NeedSignal }
        ensures made { Receives A Deadline.Never (answer.receive_as_timed result) }
        ensures did { (start : K.Party) → FirstReceiveOf K.did start me.old RecvNext.NeedSignal
            → ReceivesOf K.did start me.new (answer.receive_as_timed result) }
    {
        let mut gate = Gate::new(self.shared(), Deadline::Never, me);
        receive_answer(gate.receive_from_empty())
    }

    pub(crate) fn recv_until(
        &self,
        me: &mut K::Party,
        deadline: Deadline,
    ) -> Result<T, RecvTimeoutError>
        ensures made { Receives A deadline result }
        ensures did { ReceivesOf K.did me.old me.new result }
    {
        let mut gate = Gate::new(self.shared(), deadline, me);
        gate.receive()
    }

    pub(crate) fn drain_as(&self, me: &mut K::Party) -> Result<Drained<'_, T, A>, NoMemory>
        ensures made { HasMade {A = A} Drain after_drain result }
        ensures did { DidStep K.did Drain after_drain me.old result me.new }
    {
        Drained::answer(self.shared().call_step(me, DrainQueue))
    }
}
