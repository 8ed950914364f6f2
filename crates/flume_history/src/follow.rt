//! Makes a step on a channel, and compares its reply with the recorded one.
ghost use Rattle.std.specs.Prelude.{◌≡◌, ◌∷◌};
ghost use Rattle.flume_model.specs.Channel.{channel};
ghost use Rattle.flume_model.specs.Log.{Log, Opening};
ghost use Rattle.flume_model.specs.Replies.{IsReply};
ghost use Rattle.flume_model.specs.declared.step.Reply.{Reply};
ghost use Rattle.flume_core.specs.Represents.{Represents};
ghost use Rattle.flume_history.specs.Equal.{Equals};
ghost use Rattle.flume_history.specs.SameRuns.{IsNoMemory};
ghost use Rattle.flume_history.specs.HandedIn.{handed_in};

use crate::laws::replies_are_equal_by_case;
use flume_core::chan::Chan;
use flume_model::step::{Reply, Step};
use std::alloc::Allocator;

/// Whether a channel may give a recorded reply.
#[derive(Drop)]
pub enum Followed<T, A: Allocator> {
    /// It may: the recorded reply equals this one.
    Lawful(Reply<T, A>),
    Unlawful,
    /// The channel itself ran out of memory: nothing is known.
    NoMemory,
}

/// Makes the step, and says whether the recorded reply is lawful. If that is `NoMemory`, no step is
/// made: the state says whether a channel might have run out. Messages are compared by their `Eq`.
pub fn follow_reply<T: Copy + Eq + Drop, A: Allocator + Copy>(
    chan: &mut Chan<T, (), A>,
    step: &Step<T>,
    recorded: &Reply<T, A>,
) -> Followed<T, A>
    ensures lawful { (reply : Reply T A) → result ≡ Followed.Lawful reply
        → (opening : Opening) (log : Log T A) → Represents opening log chan.old
        → Equals T.eq recorded.now reply
        × Represents opening ((step.now, reply) ∷ log) chan.new }
    ensures not_lawful { result ≡ Followed.Unlawful → (opening : Opening) (log : Log T A)
        → Represents opening log chan.old
        → (reply : Reply T A) → IsReply (channel opening log) step.now reply
        → Equals T.eq recorded.now reply → ⊥ }
{
    replies_are_equal_by_case::<T, A>();
    if let Reply::NoMemory(_) = recorded {
        return refused(chan, step, recorded);
    }
    let reply = chan.step(*step);
    if let Reply::NoMemory(_) = reply {
        return Followed::NoMemory;
    }
    if *recorded == reply {
        Followed::Lawful(reply)
    } else {
        Followed::Unlawful
    }
}

fn refused<T: Copy + Eq + Drop, A: Allocator + Copy>(
    chan: &Chan<T, (), A>,
    step: &Step<T>,
    recorded: &Reply<T, A>,
) -> Followed<T, A>
    ensures lawful { (reply : Reply T A) → result ≡ Followed.Lawful reply
        → (opening : Opening) (log : Log T A) → Represents opening log chan.now
        → Equals T.eq recorded.now reply
        × Represents opening ((step.now, reply) ∷ log) chan.now }
    ensures not_lawful { result ≡ Followed.Unlawful → (opening : Opening) (log : Log T A)
        → Represents opening log chan.now
        → (reply : Reply T A) → IsNoMemory reply → IsReply (channel opening log) step.now reply
        → Equals T.eq recorded.now reply → ⊥ }
{
    replies_are_equal_by_case::<T, A>();
    let refusal = Reply::NoMemory(handed_in(step));
    if chan.no_memory_is_lawful(step) && *recorded == refusal {
        Followed::Lawful(refusal)
    } else {
        Followed::Unlawful
    }
}

pub(crate) fn handed_in<T: Copy>(step: &Step<T>) -> Option<T>
    ensures message { result ≡ handed_in step.now }
{
    match *step {
        Step::TrySend(message) | Step::Send(message) => Some(message),
        _ => None,
    }
}
