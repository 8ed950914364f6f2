//! An audited channel that threads share. The module gives all other types of an audit again.
ghost use Rattle.std.specs.Prelude.{◌≡◌, ◌<◌, ◌↔◌, ℕ, [], reverse, vec_len, All, IfOk, OnErr};
ghost use Rattle.flume_model.specs.Log.{opens};
ghost use Rattle.flume_model.specs.Conserved.{Conserved};
ghost use Rattle.flume_audit.specs.Recorded.{GainsReceipt, IsChannelOfHistory};
ghost use Rattle.flume_audit.specs.Settled.{IsSettled, LeastDisagreement};
ghost use Rattle.flume_audit.specs.Weights.{history_weight, lists_weight};

pub use crate::book::Book;
pub use crate::closed::Closed;
pub use crate::differs::differs;
pub use crate::receipt::{Receipt, Receipts};
pub use crate::seat::Seat;
pub use crate::weigh::{Ones, Weigh};
use flume_core::error::NoMemory;
use flume_model::step::{Reply, Step};
use std::alloc::{Allocator, Global};
use std::sync::ledger::{Blank, Ledger};
use std::sync::{Mutex, MutexGuard, Wait};

/// A `Book` behind a lock: `close` says what happened under it. Each thread has a seat of its own.
#[derive(Drop)]
pub struct Audit<T, L: Ledger, R, W: Weigh<T, A> = Ones, A: Allocator = Global> {
    rt: R,
    book: Mutex<Book<T, L, W, A>>,
}

impl<T: Copy, L: Ledger, R: Drop, W: Weigh<T, A>, A: Allocator + Copy> Audit<T, L, R, W, A> {
    /// `Book::new`, with `rt` for the lock.
    /// ```
    /// let (audit, mut seats) = Audit::<u64, L, _>::new(rt, alloc, blank, None, 1)?;
    /// for seat in seats.iter_mut() {
    ///     let _ = audit.step(seat, Step::TrySend(5));  // Ok(Sent { filled: None })
    ///     let _ = audit.step(seat, Step::TryRecv);     // Ok(Got(5))
    /// }
    /// let (closed, book) = audit.close(seats);         // Settled
    /// book.history().len();                            // 2
    /// ```
    pub fn new(
        rt: R,
        alloc: A,
        blank: Blank,
        capacity: Option<usize>,
        seats: usize,
    ) -> Result<(Self, Vec<Seat<T, L, W, A>, A>), NoMemory>
        requires name { blank.name ≡ L.name }
        requires parts { blank.parts ≡ L.parts }
        requires one_each { blank.parts ≡ seats }
        requires some { 0 < seats }
        ensures seats { IfOk result (λ r. vec_len r.1 ≡ seats) }
        ensures no_receipts { IfOk result (λ r. All (λ seat. seat ≡ []) r.1.items) }
    {
        let (book, seated) = Book::new(alloc, blank, capacity, seats)?;
        let audit = Audit {
            rt,
            book: Mutex::new(book),
        };
        Ok((audit, seated))
    }

    /// Ends the audit as `Book::close` does. Takes no lock.
    /// ```
    /// let (closed, book) = audit.close(seats);         // Settled, where all seats are there
    /// book.history();                                  // each step with its reply
    /// ```
    pub fn close(self, seats: Vec<Seat<T, L, W, A>, A>) -> (Closed, Book<T, L, W, A>)
    where
        T: Eq,
        ensures run { IsChannelOfHistory result.1 }
        ensures conserved { Conserved (opens result.1.opening 1) (reverse result.1.history) }
        ensures missing { (result.0 ≡ Closed.MissingSeat) ↔ (vec_len seats ≡ L.parts → ⊥) }
        ensures differs { (number : ℕ) → (result.0 ≡ Closed.Differs number)
            ↔ (vec_len seats ≡ L.parts)
            × LeastDisagreement ⟦<(Step<T>, Reply<T, A>) as PartialEq>⟧.eq
            result.1.history seats.items number }
        ensures settled { (result.0 ≡ Closed.Settled)
            ↔ (vec_len seats ≡ L.parts)
            × IsSettled ⟦<(Step<T>, Reply<T, A>) as PartialEq>⟧.eq
            result.1.history seats.items }
        ensures weights { vec_len seats ≡ L.parts
            → history_weight W.weight result.1.history ≡ lists_weight W.weight seats.items }
    {
        let Audit { rt: _, book } = self;
        let mut book = book.into_inner();
        let closed = book.close(seats);
        book.history();
        book.channel();
        (closed, book)
    }
}

impl<T: Copy, L: Ledger, R: Wait, W: Weigh<T, A>, A: Allocator + Copy> Audit<T, L, R, W, A> {
    /// `Book::step`, under the lock.
    /// ```
    /// let _ = audit.step(seat, Step::TrySend(5));      // Ok(Sent { filled: None })
    /// let _ = audit.step(seat, Step::TryRecv);         // Ok(Got(5))
    /// ```
    pub fn step(&self, seat: &mut Seat<T, L, W, A>, step: Step<T>) -> Result<Reply<T, A>, NoMemory>
        ensures receipt { IfOk result (λ answer. GainsReceipt seat.old step answer seat.new) }
        ensures unchanged { OnErr result (seat.new ≡ seat.old) }
    {
        self.lock().step(seat, step)
    }

    // Without a call if no other thread has the lock.
    #[inline(always)]
    fn lock(&self) -> MutexGuard<'_, Book<T, L, W, A>> {
        match self.book.try_lock() {
            Some(book) => book,
            None => self.wait_for_lock(),
        }
    }

    #[inline(never)]
    fn wait_for_lock(&self) -> MutexGuard<'_, Book<T, L, W, A>> {
        self.book.lock(&self.rt)
    }
}
