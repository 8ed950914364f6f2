//! The turns that are a whole call.
ghost use Rattle.flume_calls.specs.Turns.{Turned};
ghost use Rattle.flume_calls.specs.Batches.{IsOneStep, by_step};

use crate::turn::Turn;
use flume_core::chan::Chan;
use flume_core::error::CapacityError;
use flume_model::step::{Reply, Step};
use std::alloc::Allocator;

/// Takes all queued messages, in order; then lets blocked sends in. A refusal changes nothing.
#[derive(Clone, Copy, Drop)]
pub struct DrainQueue;

impl<T: Drop, S: Drop, A: Allocator + Copy> Turn<T, S, A> for DrainQueue {
    ghost use Rattle.std.specs.Prelude.{◌≡◌};
    ghost use Rattle.flume_model.specs.declared.step.Step.TheVariants.{Drain};
    ghost use Rattle.flume_core.specs.Represents.{ChangesNothing};
    ghost use Rattle.flume_core.specs.PossibleReply.{PossibleReply};

    type Answer = Reply<T, A>;

    ghost does = { λ _ old new answer. Turned {A = A} Drain (λ reply same. same ≡ reply)
        old new answer × (ChangesNothing Drain answer → new ≡ old) };

    ghost makes = { λ _. IsOneStep Drain (λ reply same. same ≡ reply) };

    ghost leads = { λ _ old new answer does. by_step does.0 };

    ghost answers = { λ _. PossibleReply Drain };

    fn apply(self, chan: &mut Chan<T, S, A>) -> Reply<T, A> {
        chan.drain()
    }
}

/// A clone or a drop of an end. A refusal changes nothing.
#[derive(Clone, Copy, Drop)]
pub enum EndStep {
    CloneSender,
    CloneReceiver,
    DropSender,
    DropReceiver,
}

impl<T: Drop, S: Drop, A: Allocator + Copy> Turn<T, S, A> for EndStep {
    ghost use Rattle.std.specs.Prelude.{◌≡◌};
    ghost use Rattle.flume_core.specs.Represents.{ChangesNothing};
    ghost use Rattle.flume_core.specs.PossibleReply.{PossibleReply};
    ghost use Rattle.flume_calls.specs.Singles.{end_step};

    type Answer = Reply<T, A>;

    ghost does = { λ turn old new answer.
        Turned {A = A} (end_step turn) (λ reply same. same ≡ reply) old new answer
        × (ChangesNothing (end_step turn) answer → new ≡ old) };

    ghost makes = { λ turn. IsOneStep (end_step turn) (λ reply same. same ≡ reply) };

    ghost leads = { λ _ old new answer does. by_step does.0 };

    ghost answers = { λ turn. PossibleReply (end_step turn) };

    #[inline(always)]
    fn apply(self, chan: &mut Chan<T, S, A>) -> Reply<T, A> {
        match self {
            EndStep::CloneSender => chan.clone_sender(),
            EndStep::CloneReceiver => chan.clone_receiver(),
            EndStep::DropSender => chan.drop_sender(),
            EndStep::DropReceiver => chan.drop_receiver(),
        }
    }
}

/// The queries for a number.
#[derive(Clone, Copy, Drop)]
pub enum CountQuery {
    Len,
    SenderCount,
    ReceiverCount,
}

impl<T: Drop, S: Drop, A: Allocator + Copy> Turn<T, S, A> for CountQuery {
    ghost use Rattle.std.specs.Prelude.{◌≡◌};
    ghost use Rattle.flume_model.specs.declared.step.Reply.TheVariants.{Number};
    ghost use Rattle.flume_calls.specs.Singles.{count_query_step};

    type Answer = usize;

    ghost does = { λ turn old new answer. Turned {A = A} (count_query_step turn)
        (λ reply number. reply ≡ Number number) old new answer × (new ≡ old) };

    ghost makes = { λ turn. IsOneStep (count_query_step turn)
        (λ reply number. reply ≡ Number number) };

    ghost leads = { λ _ old new answer does. by_step does.0 };

    ghost answers = { λ _ _. Unit {0} };

    fn apply(self, chan: &mut Chan<T, S, A>) -> usize {
        let reply = match self {
            CountQuery::Len => chan.len(),
            CountQuery::SenderCount => chan.sender_count(),
            CountQuery::ReceiverCount => chan.receiver_count(),
        };
        match reply {
            Reply::Number(number) => number,
            _ => unreachable!(),
        }
    }
}

/// The queries for a flag.
#[derive(Clone, Copy, Drop)]
pub enum FlagQuery {
    IsEmpty,
    IsFull,
    IsDisconnected,
}

impl<T: Drop, S: Drop, A: Allocator + Copy> Turn<T, S, A> for FlagQuery {
    ghost use Rattle.std.specs.Prelude.{◌≡◌};
    ghost use Rattle.flume_model.specs.declared.step.Reply.TheVariants.{Flag};
    ghost use Rattle.flume_calls.specs.Singles.{flag_query_step};

    type Answer = bool;

    ghost does = { λ turn old new answer. Turned {A = A} (flag_query_step turn)
        (λ reply flag. reply ≡ Flag flag) old new answer × (new ≡ old) };

    ghost makes = { λ turn. IsOneStep (flag_query_step turn) (λ reply flag. reply ≡ Flag flag) };

    ghost leads = { λ _ old new answer does. by_step does.0 };

    ghost answers = { λ _ _. Unit {0} };

    fn apply(self, chan: &mut Chan<T, S, A>) -> bool {
        let reply = match self {
            FlagQuery::IsEmpty => chan.is_empty(),
            FlagQuery::IsFull => chan.is_full(),
            FlagQuery::IsDisconnected => chan.is_disconnected(),
        };
        match reply {
            Reply::Flag(flag) => flag,
            _ => unreachable!(),
        }
    }
}

/// The query for the capacity; `None` if unbounded.
#[derive(Clone, Copy, Drop)]
pub struct CapacityQuery;

impl<T: Drop, S: Drop, A: Allocator + Copy> Turn<T, S, A> for CapacityQuery {
    ghost use Rattle.std.specs.Prelude.{◌≡◌};
    ghost use Rattle.flume_model.specs.declared.step.Step.TheVariants.{Capacity as AskForCapacity};
    ghost use Rattle.flume_model.specs.declared.step.Reply.TheVariants.{Capacity};

    type Answer = Option<usize>;

    ghost does = { λ _ old new answer. Turned {A = A} AskForCapacity
        (λ reply capacity. reply ≡ Capacity capacity) old new answer × (new ≡ old) };

    ghost makes = { λ _. IsOneStep AskForCapacity (λ reply capacity. reply ≡ Capacity capacity) };

    ghost leads = { λ _ old new answer does. by_step does.0 };

    ghost answers = { λ _ _. Unit {0} };

    fn apply(self, chan: &mut Chan<T, S, A>) -> Option<usize> {
        match chan.capacity() {
            Reply::Capacity(capacity) => capacity,
            _ => unreachable!(),
        }
    }
}

/// Sets the capacity. `Unbounded`: the channel has none. `Disconnected`: it has one, and is closed.
#[derive(Clone, Copy, Drop)]
pub struct SetCapacity {
    pub capacity: usize,
}

impl<T: Drop, S: Drop, A: Allocator + Copy> Turn<T, S, A> for SetCapacity {
    ghost use Rattle.std.specs.Prelude.{◌≡◌, OnErr};
    ghost use Rattle.flume_model.specs.declared.step.Step.TheVariants as step;
    ghost use Rattle.flume_calls.specs.Singles.{after_set_capacity};

    type Answer = Result<(), CapacityError>;

    ghost does = { λ turn old new answer.
        Turned {A = A} (step.SetCapacity turn.capacity) after_set_capacity old new answer
        × OnErr answer (new ≡ old) };

    ghost makes = { λ turn. IsOneStep (step.SetCapacity turn.capacity) after_set_capacity };

    ghost leads = { λ _ old new answer does. by_step does.0 };

    ghost answers = { λ _ _. Unit {0} };

    fn apply(self, chan: &mut Chan<T, S, A>) -> Result<(), CapacityError> {
        match chan.set_capacity(self.capacity) {
            Reply::Done => Ok(()),
            Reply::Unbounded => Err(CapacityError::Unbounded),
            Reply::Ended => Err(CapacityError::Disconnected),
            _ => unreachable!(),
        }
    }
}
