//! How much a step with its reply weighs.
ghost use Rattle.std.specs.Prelude.{ℕ, refl};
ghost use Rattle.flume_model.specs.declared.step.Step.{Step};
ghost use Rattle.flume_model.specs.declared.step.Reply.{Reply};
ghost use Rattle.flume_audit.specs.Weights.{GoesByMessages};

use flume_model::step::{Reply, Step};
use std::alloc::Allocator;

/// A weight of a step with its reply, as a definition. If it's 1 at one pair only, sums count it.
pub trait Weigh<T, A: Allocator> {
    ghost weight: { Step T → Reply T A → ℕ };

    ghost by_messages: { GoesByMessages weight };
}

/// Weighs each step with its reply 1.
pub struct Ones;

impl<T, A: Allocator> Weigh<T, A> for Ones {
    ghost weight = { λ step reply. 1 };

    ghost by_messages = { λ step reply other same. refl };
}
