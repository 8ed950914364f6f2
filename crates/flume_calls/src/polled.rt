//! A call that is polled: a future, a sink or a stream without its lock and its waker.
ghost use Rattle.std.specs.Prelude.{◌≡◌, ◌↔◌, ℕ, IsTrue, List, Option, None, IsSome};
ghost use Rattle.flume_model.specs.declared.step.Step.{Step};
ghost use Rattle.flume_model.specs.declared.step.Reply.{Reply};
ghost use Rattle.flume_state.specs.State.{State};
ghost use Rattle.flume_calls.specs.Batches.{IsBatch};
ghost use Rattle.flume_calls.specs.Polls.{AtMostOneStep};

mod receive;
mod send;

use flume_core::chan::Chan;
pub use receive::PolledReceive;
pub use send::PolledSend;
use std::alloc::Allocator;

/// A call that is polled until it ends. Its owner makes a signal only if it would wait.
pub trait Polled<T, S, A: Allocator> {
    /// What the call ends with.
    type Answer;

    ghost waits: { Self → State T S → Type 0 };

    // The call, the signal that it is given, the channel before and after, the call after.
    ghost polls: { Self → Option S → State T S → State T S → Self → Option Self.Answer → Type 0 };

    // Which steps, with which replies, by the call before, the call after and the answer.
    ghost makes: { Self → Self → List (Step T × Reply T A) → Option Self.Answer → Type 0 };

    ghost leads: { (old : Self) (signal : Option S) (before after : State T S) (new : Self)
        (answer : Option Self.Answer) → polls old signal before after new answer
        → IsBatch (makes old new) before after answer };

    ghost parked: { Self → Option ℕ };

    /// The ticket under which the call is parked; `None` if it isn't parked.
    fn ticket(&self) -> Option<u64>
        ensures ticket { result ≡ parked self.now };

    /// Whether a poll would have to wait now. No step.
    fn would_wait(&self, chan: &Chan<T, S, A>) -> bool
        ensures waits { IsTrue result ↔ waits self.now chan.now };

    // The checker proves no clause of a trait's method that takes an `Option<S>` by value.
    /// Polls the call, which may take the signal out of `signal`. `None`: it waits, and has left
    /// the signal. If it would wait and `signal` is `None`, it ends with `NoMemory`.
    fn poll(&mut self, chan: &mut Chan<T, S, A>, signal: &mut Option<S>) -> Option<Self::Answer>
        ensures row { polls self.old signal.old chan.old chan.new self.new result }
        ensures step { AtMostOneStep A chan.old chan.new }
        ensures pending { result ≡ None → IsSome signal.old };
}
