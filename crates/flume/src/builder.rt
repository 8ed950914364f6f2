//! How a channel is opened.
ghost use Rattle.std.specs.Prelude.{◌≡◌, IfOk, ⊤};
ghost use Rattle.flume.specs.Builders.{BuilderValue};

use crate::opening;
use crate::receiver::Receiver;
use crate::sender::Sender;
use crate::shared::Waits;
use flume_core::error::NoMemory;
use std::alloc::{Alloc, AllocError, Allocator};
use std::fmt;
use std::marker::Model;

/// How a channel is to be opened. A copy opens another one with the same number. Each holds at most
/// 4,294,967,295 messages, as many parked receivers, as many live sends. Past that: `NoMemory`.
#[derive(Copy)]
pub struct Builder<R: Waits, A: Allocator + Copy> {
    rt: R,
    alloc: A,
    id: u64,
}

impl<R: Waits, A: Allocator + Copy> Model for Builder<R, A> {
    ghost use Rattle.flume.specs.Builders.{BuilderValue};

    ghost Value = { BuilderValue R A };

    ghost view = { λ builder. record {
      runtime = builder.rt;
      allocator = builder.alloc;
      number = builder.id;
    } };

    ghost inverse = { λ plan. record {
      rt = plan.runtime;
      alloc = plan.allocator;
      id = plan.number;
    } };
}

/// A builder with the number 0 and the runtime's allocator. Doesn't allocate. A runtime value that
/// has none is given with one: `flume::on((rt, alloc))`.
/// ```
/// let (tx, rx) = flume::on(rt).unbounded()?;
/// tx.send(42)?;
/// assert_eq!(rt; rx.recv(), Ok(42));
/// ```
pub fn on<R: Waits + Alloc>(rt: R) -> Builder<R, R::A>
where
    R::A: Copy,
    ensures runtime { result.runtime ≡ rt }
    ensures number { result.number ≡ 0 }
{
    Builder {
        rt,
        alloc: rt.alloc(),
        id: 0,
    }
}

impl<R: Waits, A: Allocator + Copy> Builder<R, A> {
    /// Gives the channel this number. `same_channel` compares the numbers and nothing else.
    /// ```
    /// let (first, _) = flume::on(rt).number(1).unbounded::<u64>()?;
    /// let (second, _) = flume::on(rt).number(2).unbounded()?;
    /// assert!(rt; !first.same_channel(&second));
    /// ```
    pub fn number(self, number: u64) -> Self
        ensures number { result.number ≡ number }
        ensures runtime { result.runtime ≡ self.runtime }
        ensures allocator { result.allocator ≡ self.allocator }
    {
        Builder { id: number, ..self }
    }

    /// Gives the channel this allocator, for all its memory.
    /// ```
    /// let (tx, rx) = flume::on(rt).allocator(rt.alloc()).bounded(16)?;
    /// tx.send(42)?;
    /// assert_eq!(rt; rx.recv(), Ok(42));
    /// ```
    pub fn allocator<B: Allocator + Copy>(self, alloc: B) -> Builder<R, B>
        ensures allocator { result.allocator ≡ alloc }
        ensures runtime { result.runtime ≡ self.runtime }
        ensures number { result.number ≡ self.number }
    {
        Builder {
            rt: self.rt,
            alloc,
            id: self.id,
        }
    }

    pub(crate) fn into_parts(self) -> (R, A, u64)
        ensures number { result.2 ≡ self.number }
    {
        (self.rt, self.alloc, self.id)
    }

    /// Opens an unbounded channel. `NoMemory`: it couldn't be allocated.
    pub fn unbounded<T: Drop>(self) -> Result<(Sender<T, R, A>, Receiver<T, R, A>), NoMemory>
        ensures sender { IfOk result (λ ends. ends.0 ≡ self.number) }
        ensures receiver { IfOk result (λ ends. ends.1 ≡ self.number) }
    {
        opening::unbounded(self.rt, self.alloc, self.id)
    }

    /// Opens a channel that holds at most `capacity` messages, apart from those sent while a
    /// receiver waits. At 0 a send waits until one takes its message. Errors as of `unbounded`.
    /// ```
    /// let (tx, rx) = flume::on(rt).bounded(1)?;
    /// assert_eq!(rt; tx.try_send(1), Ok(()));
    /// assert_eq!(rt; tx.try_send(2), Err(TrySendError::Full(2)));
    /// assert_eq!(rt; rx.recv(), Ok(1));
    /// ```
    pub fn bounded<T: Drop>(
        self,
        capacity: usize,
    ) -> Result<(Sender<T, R, A>, Receiver<T, R, A>), NoMemory>
        ensures sender { IfOk result (λ ends. ends.0 ≡ self.number) }
        ensures receiver { IfOk result (λ ends. ends.1 ≡ self.number) }
    {
        opening::bounded(self.rt, self.alloc, self.id, capacity)
    }
}

impl<R: Waits, A: Allocator + Copy> Clone for Builder<R, A> {
    ghost is_clone = { λ builder copy. copy ≡ builder };

    ghost is_infallible = { λ _. ⊤ };

    fn clone(&self) -> Result<Self, AllocError> {
        Ok(*self)
    }
}

impl<R: Waits, A: Allocator + Copy> fmt::Debug for Builder<R, A> {
    fn fmt<W: fmt::Write>(&self, f: &mut fmt::Formatter<W>) -> fmt::Result {
        f.debug_struct("Builder")
            .field("number", &self.id)
            .finish_non_exhaustive()
    }
}
