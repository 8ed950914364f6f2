//! What a channel's lock protects.
ghost use Rattle.std.specs.Prelude.{◌≡◌, ◌↔◌, ℕ, [], IsTrue, IsSome, Some, None, length};
ghost use Rattle.std.specs.Option.{option_copied, option_and_then};
ghost use Rattle.flume_model.specs.Log.{opens};
ghost use Rattle.flume_model.specs.Entries.{waiting_count, woken_count};
ghost use Rattle.flume_state.specs.Sends.{NoDueSend};
ghost use Rattle.flume_state.specs.Receivers.{NoDueReceiver};
ghost use Rattle.flume_state.specs.State.{State, new_state};
ghost use Rattle.flume_state.specs.Signals.{signal_of};
ghost use Rattle.flume_core.specs.Represents.{IsReachable, Represents};
ghost use Rattle.flume_core.specs.StateFacts.{ChannelFacts, NobodyIsStuck};
ghost use Rattle.flume_calls.specs.AtRest.{IsAtRest, IsCallAtRest, IsLeft, NoneCounted};
ghost use Rattle.flume_calls.specs.Descriptions.{Describes};
ghost use Rattle.flume_calls.specs.EachIsRung.{EachIsRung};
ghost use Rattle.flume_calls.specs.Polls.{IsPollCall, AtMostOneStep};
ghost use Rattle.flume_calls.specs.NoCallWaits.{NoCallWaits};

use crate::description::Description;
use crate::due::{Bell, fire_due};
use crate::polled::Polled;
use crate::turn::Turn;
use flume_core::chan::Chan;
use flume_core::facts::facts;
use flume_model::step::Reply;
use std::alloc::Allocator;
use std::marker::Model;

/// A channel as its lock protects it between two calls.
/// ```
/// let mut locked: Locked<u64, u64, Global> = Locked::new(rt.alloc(), Some(1));
/// locked.make(FirstSend { message: 7 }, &mut bell);      // Done(Ok(()))
/// locked.make(FirstSend { message: 8 }, &mut bell);      // NeedSignal(8): it is full
/// locked.make(CountQuery::Len, &mut bell);                // 1
/// locked.make(FirstReceive, &mut bell);                  // Done(Ok(7))
/// ```
#[derive(Drop)]
pub struct Locked<T, S, A: Allocator> {
    chan: Chan<T, S, A>,
}

impl<T, S, A: Allocator> Model for Locked<T, S, A> {
    ghost use Rattle.std.specs.Coded.{codes};
    ghost use Rattle.flume_state.specs.Sends.{send_map_code};
    ghost use Rattle.flume_state.specs.State.{State};
    ghost use Rattle.flume_calls.specs.AtRest.{IsAtRest};

    ghost Value = { State T S };

    ghost coded = { Prim.hlevel (codes, send_map_code S.code) };

    ghost view = { λ locked. locked.chan };

    ghost invariant = { λ locked. IsAtRest A locked.chan };
}

impl<T: Drop, S: Drop, A: Allocator + Copy> Locked<T, S, A> {
    /// A new channel; unbounded if `None`. Doesn't allocate.
    #[inline(always)]
    pub fn new(alloc: A, capacity: Option<usize>) -> Self
        ensures state { result ≡ new_state (opens capacity 1) }
        ensures represents { Represents {A = A} (opens capacity 1) [] result }
    {
        Locked {
            chan: Chan::new(alloc, capacity),
        }
    }

    /// The laws of the channel's state. Does nothing.
    pub fn facts(&self)
        ensures reachable { IsReachable A self.now }
        ensures facts { ChannelFacts self.now }
        ensures rest { woken_count self.now.entries ≡ 0 → NobodyIsStuck self.now }
        ensures no_send_is_due { NoDueSend self.now.sends }
        ensures no_receiver_is_due { NoDueReceiver self.now.entries }
    {
        facts(&self.chan);
    }

    // The path of a call that doesn't park is inlined, here and in the turns.
    /// Makes the turn, and rings once for each ticket that is due then.
    #[inline(always)]
    pub fn make<C: Turn<T, S, A>, B: Bell<S>>(&mut self, turn: C, bell: &mut B) -> C::Answer
        ensures call { IsCallAtRest A B.rings (C.does turn) self.old bell.old self.new bell.new
            result }
        ensures each_is_rung { EachIsRung B.rings self.old bell.old self.new bell.new }
        ensures answers { C.answers turn result }
    {
        let answer = turn.apply(&mut self.chan);
        fire_due(&mut self.chan, bell);
        answer
    }

    /// Whether no send is blocked and no receiver waits. No step.
    /// ```
    /// let mut locked: Locked<u64, u64, Global> = Locked::new(rt.alloc(), Some(0));
    /// locked.no_call_waits();                                        // true
    /// let message = 7;
    /// let signal = 10;
    /// locked.make(ParkSend { message, signal }, &mut bell);          // Park(call)
    /// locked.no_call_waits();                                        // false
    /// ```
    #[inline(always)]
    pub fn no_call_waits(&self) -> bool
        ensures no_call_waits { IsTrue result ↔ NoCallWaits self.now }
    {
        self.chan.blocked_len() == 0 && self.chan.waiting_len() == 0
    }

    /// Makes a turn of at most one step, and rings no bell: no ticket is due then (`IsAtRest`).
    /// ```
    /// let mut locked: Locked<u64, u64, Global> = Locked::new(rt.alloc(), None);
    /// locked.make_without_bell(FirstSend { message: 7 });            // Done(Ok(()))
    /// ```
    #[inline(always)]
    pub fn make_without_bell<C: Turn<T, S, A>>(&mut self, turn: C) -> C::Answer
        requires no_call_waits { NoCallWaits self.old }
        requires one_step { (new : State T S) (answer : C.Answer)
            → C.does turn self.old new answer → AtMostOneStep A self.old new }
        ensures does { C.does turn self.old self.new result }
        ensures answers { C.answers turn result }
    {
        let made = turn.apply(&mut self.chan);
        facts(&self.chan);
        made
    }

    /// Whether a poll of the call would have to wait now. No step.
    #[inline(always)]
    pub fn would_wait<P: Polled<T, S, A>>(&self, polled: &P) -> bool
        ensures waits { IsTrue result ↔ P.waits polled.now self.now }
    {
        polled.would_wait(&self.chan)
    }

    /// How many sends are blocked.
    pub fn blocked_len(&self) -> usize
        ensures blocked { result ≡ length self.now.blocked }
    {
        self.chan.blocked_len()
    }

    /// How many parked receivers wait.
    pub fn waiting_len(&self) -> usize
        ensures waiting { result ≡ waiting_count self.now.entries }
    {
        self.chan.waiting_len()
    }

    /// What the channel holds, and who uses it. No step.
    /// ```
    /// let mut locked: Locked<u64, u64, Global> = Locked::new(rt.alloc(), Some(4));
    /// locked.make(FirstSend { message: 7 }, &mut bell);              // Done(Ok(()))
    /// locked.describe().len;                                         // 1
    /// locked.describe().capacity;                                    // Some(4)
    /// ```
    pub fn describe(&self) -> Description
        ensures describes { Describes self.now result }
    {
        let Reply::Number(len) = self.chan.len() else {
            unreachable!();
        };
        let Reply::Capacity(capacity) = self.chan.capacity() else {
            unreachable!();
        };
        let Reply::Number(sender_count) = self.chan.sender_count() else {
            unreachable!();
        };
        let Reply::Number(receiver_count) = self.chan.receiver_count() else {
            unreachable!();
        };
        Description {
            len,
            capacity,
            blocked_senders: self.chan.blocked_len(),
            waiting_receivers: self.chan.waiting_len(),
            sender_count,
            receiver_count,
        }
    }

    /// How many messages are queued or blocked. `None`: no end lives, or no `usize` is so great. No
    /// step.
    pub fn messages_left(&self) -> Option<usize>
        ensures left { (n : ℕ) → result ≡ Some n → IsLeft n self.now }
        ensures none { result ≡ None → NoneCounted self.now }
    {
        let Reply::Number(senders) = self.chan.sender_count() else {
            unreachable!();
        };
        let Reply::Number(receivers) = self.chan.receiver_count() else {
            unreachable!();
        };
        if senders == 0 && receivers == 0 {
            return None;
        }
        let Reply::Number(queued) = self.chan.len() else {
            unreachable!();
        };
        queued.checked_add(self.chan.blocked_len())
    }

    /// The signal that the parked call left last. No step.
    #[inline(always)]
    pub fn parked_signal<P: Polled<T, S, A>>(&self, polled: &P) -> Option<&S>
        ensures signal { option_copied result
            ≡ option_and_then (signal_of self.now) (P.parked polled.now) }
    {
        match polled.ticket() {
            Some(ticket) => self.chan.signal(ticket),
            None => None,
        }
    }

    /// Polls the call, and rings once for each ticket that is due then.
    #[inline(always)]
    pub fn poll<P: Polled<T, S, A>, B: Bell<S>>(
        &mut self,
        polled: &mut P,
        signal: &mut Option<S>,
        bell: &mut B,
    ) -> Option<P::Answer>
        ensures call { IsPollCall A B.rings
            (λ between. P.polls polled.old signal.old self.old between polled.new result)
            self.old bell.old self.new bell.new }
        ensures each_is_rung { EachIsRung B.rings self.old bell.old self.new bell.new }
        ensures pending { result ≡ None → IsSome signal.old }
    {
        let answer = polled.poll(&mut self.chan, signal);
        fire_due(&mut self.chan, bell);
        answer
    }
}
