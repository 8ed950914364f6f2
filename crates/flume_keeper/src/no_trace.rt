//! A keeper that keeps nothing.
ghost use Rattle.flume_keeper.specs.Keeps.{SomeRunGoesOn};

use crate::keeper::{Keeper, Made, Maker};
use flume_calls::locked::Locked;
use std::alloc::Allocator;

/// Nothing is kept of what is done to the channel.
#[derive(Drop)]
pub struct NoTrace;

/// Who sends and receives, if that isn't kept.
#[derive(Drop)]
pub struct NoParty;

impl<T, A: Allocator> Keeper<T, A> for NoTrace {
    type Party = NoParty;

    ghost fits = { λ _ _. Unit {0} };

    // Of a channel without a trace a contract can say this only of some channel.
    ghost did = { λ _ steps _. SomeRunGoesOn {T = T} {A = A} steps };

    #[inline(always)]
    fn keep<S, M: Maker<T, S, A>>(
        &mut self,
        _party: &mut NoParty,
        _made: &Made<M, M::Answer, Locked<T, S, A>>,
    ) {}

    #[inline(always)]
    fn keep_unowned<S, M: Maker<T, S, A>>(&mut self, _made: &Made<M, M::Answer, Locked<T, S, A>>) {}
}
