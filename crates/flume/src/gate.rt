//! The gate of the ends: turns are made under the channel's lock, and a call waits on its parker.
ghost use Rattle.std.specs.Prelude.{◌≡◌, ⊤};
ghost use Rattle.flume.specs.GateSteps.{Found, MakesWaiter, WaitsUpTo, SendPark, SendAgain};
ghost use Rattle.flume.specs.GateSteps.{ReceiveFirst, ReceivePark, ReceiveAgain, Receives};
ghost use Rattle.flume.specs.ManyReceiveSteps.{FindsNone};
ghost use Rattle.flume.specs.PartySteps.{ParkSendOf, AgainSendOf, Same};
ghost use Rattle.flume.specs.PartySteps.{FirstReceiveOf, ParkReceiveOf, AgainReceiveOf};
ghost use Rattle.flume.specs.PartySteps.{ReceivesOf};

use crate::shared::{Shared, Waits};
use crate::signal::{Parker, Signal};
use flume_calls::calls::{
    AgainReceive, AgainSend, FirstReceive, ParkReceive, ParkSend, RecvCall, RecvNext, SendCall,
    SendNext,
};
use flume_calls::gates::{RecvGate, SendGate, recv_over, waiting_receive};
use flume_core::error::RecvTimeoutError;
use flume_deadline::Deadline;
use flume_keeper::Keeper;
use flume_model::step::Kind;
use std::alloc::Allocator;
use std::sync::Arc;

#[derive(Drop)]
pub(crate) struct Gate<'a, T, R: Waits, A: Allocator + Copy, K: Keeper<T, A>> {
    shared: &'a Shared<T, R, A, K>,
    deadline: Deadline,
    me: &'a mut K::Party,
}

impl<'a, T: Drop, R: Waits, A: Allocator + Copy, K: Keeper<T, A>> Gate<'a, T, R, A, K> {
    #[inline(always)]
    pub(crate) fn new(
        shared: &'a Shared<T, R, A, K>,
        deadline: Deadline,
        me: &'a mut K::Party,
    ) -> Self
        ensures deadline { result.deadline ≡ deadline }
        ensures party { result.me.now ≡ me.old }
        ensures same_reference { result.me.ghost_name ≡ me.entry.ghost_name }
    {
        Gate {
            shared,
            deadline,
            me,
        }
    }

    /// A receive, with its first turn.
    #[inline(always)]
    pub(crate) fn receive(&mut self) -> Result<T, RecvTimeoutError>
        ensures made { Receives A self.old.deadline result }
        ensures did { ReceivesOf K.did self.old.me.now self.new.me.now result }
        ensures same_reference { self.new.me.ghost_name ≡ self.old.me.ghost_name }
    {
        let shared = self.shared;
        recv_over(&shared.rt, self)
    }

    /// A receive, after a first turn that found the channel empty.
    #[inline(always)]
    pub(crate) fn receive_from_empty(&mut self) -> Result<T, RecvTimeoutError>
        requires none { FindsNone T A }
        requires tried { (start : K.Party)
            × FirstReceiveOf K.did start self.old.me.now RecvNext.NeedSignal }
        ensures made { Receives A self.old.deadline result }
        ensures did { (start : K.Party)
            → FirstReceiveOf K.did start self.old.me.now RecvNext.NeedSignal
            → ReceivesOf K.did start self.new.me.now result }
        ensures same_reference { self.new.me.ghost_name ≡ self.old.me.ghost_name }
    {
        let shared = self.shared;
        waiting_receive(&shared.rt, self)
    }
}

impl<T: Drop, R: Waits, A: Allocator + Copy, K: Keeper<T, A>> SendGate<T> for Gate<'_, T, R, A, K> {
    type Waiter = Arc<Parker, A>;

    type Signal = Signal<A>;

    // A send has a gate only after its first turn, which found the channel full.
    ghost first_turn = { Found };

    ghost makes = { λ old new made. MakesWaiter old.deadline new.deadline made
        × (new.me.ghost_name ≡ old.me.ghost_name) × Same K.did old.me.now new.me.now made };

    ghost parking_turn = { λ old message new next.
        SendPark A old.deadline message new.deadline next
        × (new.me.ghost_name ≡ old.me.ghost_name)
        × ParkSendOf K.did old.me.now message new.me.now next };

    ghost parked_turn = { λ old ticket last new next.
        SendAgain A old.deadline ticket last new.deadline next
        × (new.me.ghost_name ≡ old.me.ghost_name)
        × AgainSendOf K.did old.me.now ticket last new.me.now next };

    ghost waits = { λ old new expired. WaitsUpTo old.deadline new.deadline expired
        × (new.me.ghost_name ≡ old.me.ghost_name) × Same K.did old.me.now new.me.now expired };

    #[inline(always)]
    fn first(&mut self, message: T) -> SendNext<T> {
        SendNext::NeedSignal(message)
    }

    #[inline(always)]
    fn arm(&mut self) -> Option<(Arc<Parker, A>, Signal<A>)> {
        self.shared.new_parker()
    }

    #[inline(always)]
    fn park(&mut self, message: T, signal: Signal<A>) -> SendNext<T> {
        self.shared.call_cold(self.me, ParkSend { message, signal })
    }

    #[inline(always)]
    fn again(&mut self, call: SendCall, last: bool) -> SendNext<T> {
        let signal = None;
        self.shared
            .call_cold(self.me, AgainSend { call, last, signal })
    }

    #[inline(always)]
    fn wait(&mut self, parker: &Arc<Parker, A>) -> bool {
        parker.wait_up_to(&self.shared.rt, self.deadline)
    }
}

impl<T: Drop, R: Waits, A: Allocator + Copy, K: Keeper<T, A>> RecvGate<T> for Gate<'_, T, R, A, K> {
    type Waiter = Arc<Parker, A>;

    type Signal = Signal<A>;

    ghost first_turn = { λ old new next. ReceiveFirst A old.deadline new.deadline next
        × (new.me.ghost_name ≡ old.me.ghost_name)
        × FirstReceiveOf K.did old.me.now new.me.now next };

    ghost makes = { λ old new made. MakesWaiter old.deadline new.deadline made
        × (new.me.ghost_name ≡ old.me.ghost_name) × Same K.did old.me.now new.me.now made };

    ghost parking_turn = { λ old new next. ReceivePark A old.deadline new.deadline next
        × (new.me.ghost_name ≡ old.me.ghost_name)
        × ParkReceiveOf K.did old.me.now new.me.now next };

    ghost parked_turn = { λ old ticket last new next.
        ReceiveAgain A old.deadline ticket last new.deadline next
        × (new.me.ghost_name ≡ old.me.ghost_name)
        × AgainReceiveOf K.did old.me.now ticket last new.me.now next };

    ghost waits = { λ old new expired. WaitsUpTo old.deadline new.deadline expired
        × (new.me.ghost_name ≡ old.me.ghost_name) × Same K.did old.me.now new.me.now expired };

    ghost can_park = { λ _. ⊤ };

    #[inline(always)]
    fn first(&mut self) -> RecvNext<T> {
        self.shared.call_step(self.me, FirstReceive)
    }

    #[inline(always)]
    fn arm(&mut self) -> Option<(Arc<Parker, A>, Signal<A>)> {
        self.shared.new_parker()
    }

    #[inline(always)]
    fn park(&mut self, signal: Signal<A>) -> RecvNext<T> {
        let kind = Kind::Block;
        self.shared.call_cold(self.me, ParkReceive { kind, signal })
    }

    #[inline(always)]
    fn again(&mut self, call: RecvCall, last: bool) -> RecvNext<T> {
        let signal = None;
        self.shared
            .call_cold(self.me, AgainReceive { call, last, signal })
    }

    #[inline(always)]
    fn wait(&mut self, parker: &Arc<Parker, A>) -> bool {
        parker.wait_up_to(&self.shared.rt, self.deadline)
    }
}
