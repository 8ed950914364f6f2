//! Who keeps what is done to a channel, and what is kept of a turn or a poll.
ghost use Rattle.std.specs.Prelude.{List};
ghost use Rattle.flume_model.specs.declared.step.Step.{Step};
ghost use Rattle.flume_model.specs.declared.step.Reply.{Reply};
ghost use Rattle.flume_model.specs.Log.{Log, Opening};
ghost use Rattle.flume_core.specs.Represents.{IsReachable};
ghost use Rattle.flume_keeper.specs.Keeps.{Did, HasMade, LogsOf, MovesMessages, MovesNone};

use flume_calls::locked::Locked;
use flume_calls::polled::Polled;
use flume_calls::turn::Turn;
use std::alloc::Allocator;
use std::snapshot::Snapshot;

/// What makes steps: a turn, or a poll, which is the call before it and the call after it.
pub trait Maker<T, S, A: Allocator> {
    /// What is answered to the steps' replies.
    type Answer;

    // Which steps, with which replies, by the answer.
    ghost makes: { Self → List (Step T × Reply T A) → Self.Answer → Type 0 };
}

impl<T, S, A: Allocator, C: Turn<T, S, A>> Maker<T, S, A> for Snapshot<C> {
    type Answer = C::Answer;

    ghost makes = { λ turn. C.makes turn.value };
}

impl<T, S, A: Allocator, P: Polled<T, S, A>> Maker<T, S, A> for (Snapshot<P>, Snapshot<P>) {
    type Answer = Option<P::Answer>;

    ghost makes = { λ call. P.makes call.0.value call.1.value };
}

/// A turn or a poll that was made, its answer, and the channel before and after. They exist in
/// proofs only.
#[derive(Drop)]
pub struct Made<M, N, L> {
    pub by: M,
    pub answer: Snapshot<N>,
    pub before: Snapshot<L>,
    pub after: Snapshot<L>,
}

/// Who keeps what is done to a channel. It lies under the channel's lock. Its functions do nothing.
pub trait Keeper<T, A: Allocator>: Drop {
    /// Who sends and receives.
    type Party;

    // What is kept is one of these logs.
    ghost fits: { Self → (Opening → Log T A → Type 0) → Type 0 };

    // The party made these steps, with these replies.
    ghost did: { Self.Party → List (Step T × Reply T A) → Self.Party → Type 0 };

    /// Keeps a turn or a poll of the party.
    fn keep<S, M: Maker<T, S, A>>(
        &mut self,
        party: &mut Self::Party,
        made: &Made<M, M::Answer, Locked<T, S, A>>,
    )
        requires made { HasMade (M.makes made.now.by) made.now.before.value made.now.after.value
            made.now.answer.value }
        requires moves { MovesMessages (M.makes made.now.by) }
        requires reachable { IsReachable A made.now.before.value }
        requires fits { fits self.old (LogsOf made.now.before.value) }
        ensures fits { fits self.new (LogsOf made.now.after.value) }
        ensures did { Did did (M.makes made.now.by) party.old made.now.answer.value party.new };

    /// Keeps a turn of nobody: a clone, a drop, a query.
    fn keep_unowned<S, M: Maker<T, S, A>>(&mut self, made: &Made<M, M::Answer, Locked<T, S, A>>)
        requires made { HasMade (M.makes made.now.by) made.now.before.value made.now.after.value
            made.now.answer.value }
        requires moves { MovesNone (M.makes made.now.by) }
        requires fits { fits self.old (LogsOf made.now.before.value) }
        ensures fits { fits self.new (LogsOf made.now.after.value) };
}
