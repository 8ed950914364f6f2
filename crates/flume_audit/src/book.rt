//! A channel with its history.
ghost use Rattle.std.specs.Prelude.{◌≡◌, ◌<◌, ◌↔◌, ℕ, [], length, map, reverse, vec_len, All};
ghost use Rattle.std.specs.Prelude.{IfOk, OnErr};
ghost use Rattle.flume_model.specs.Log.{opens};
ghost use Rattle.flume_model.specs.Conserved.{Conserved};
ghost use Rattle.flume_audit.specs.Recorded.{IsChannelOfHistory, IsRecorded, new_book};
ghost use Rattle.flume_audit.specs.Settled.{IsSettled, LeastDisagreement};
ghost use Rattle.flume_audit.specs.Weights.{history_weight, lists_weight};

use crate::closed::Closed;
use crate::differs::differs;
use crate::laws::settled_if_nothing_differs;
use crate::receipt::Receipt;
use crate::reply::{copy_reply, drain_len};
use crate::seat::Seat;
use crate::tally::{add_weight, merge_all, seat_all};
use crate::weigh::{Ones, Weigh};
use flume_core::chan::Chan;
use flume_core::error::NoMemory;
use flume_model::laws::users::messages_are_conserved;
use flume_model::step::{Reply, Step};
use std::alloc::{Allocator, Global};
use std::marker::{Model, PhantomData};
use std::sync::ledger;
use std::sync::ledger::{Blank, Ledger};

/// A channel with its history: each step that was made, with its reply.
#[derive(Drop)]
pub struct Book<T, L: Ledger, W: Weigh<T, A> = Ones, A: Allocator = Global> {
    chan: Chan<T, (), A>,
    opening: Option<usize>,
    history: Vec<(Step<T>, Reply<T, A>), A>,
    seats: usize,
    ledger: ledger::Book<L>,
    weigh: PhantomData<W>,
}

impl<T, L: Ledger, W: Weigh<T, A>, A: Allocator> Model for Book<T, L, W, A> {
    ghost use Rattle.std.specs.Prelude.{◌≡◌, ◌<◌};
    ghost use base.Stored.{coded_unit};
    ghost use Rattle.std.specs.Coded.{codes};
    ghost use Rattle.flume_state.specs.Sends.{send_map_code};
    ghost use Rattle.flume_audit.specs.Recorded.{Recorded, IsChannelOfHistory};
    ghost use Rattle.flume_audit.specs.Weights.{history_weight};

    ghost Value = { Recorded T A };

    ghost view = { λ book. record {
      opening = book.opening;
      history = book.history.items;
      channel = book.chan;
    } };

    ghost coded = { Prim.hlevel (codes, send_map_code coded_unit) };

    ghost invariant = { λ book. IsChannelOfHistory (record {
      opening = book.opening;
      history = book.history.items;
      channel = book.chan;
    }) × (book.seats ≡ L.parts) × (0 < L.parts)
        × (book.ledger.total ≡ history_weight W.weight book.history.items) };
}

impl<T: Copy, L: Ledger, W: Weigh<T, A>, A: Allocator + Copy> Book<T, L, W, A> {
    /// A book of a new channel, unbounded if `None`, and its seats. `NoMemory`: no room for these.
    /// ```
    /// let (mut book, mut seats) = Book::<u64, L>::new(alloc, blank, Some(1), 2)?;
    /// for seat in seats.iter_mut() {
    ///     let _ = book.step(seat, Step::TrySend(5));   // Ok(Sent { filled: None })
    ///     let _ = book.step(seat, Step::TryRecv);      // Ok(Got(5))
    /// }
    /// book.close(seats);                               // Settled
    /// book.history().len();                            // 4
    /// ```
    pub fn new(
        alloc: A,
        blank: Blank,
        capacity: Option<usize>,
        seats: usize,
    ) -> Result<(Self, Vec<Seat<T, L, W, A>, A>), NoMemory>
        requires name { blank.name ≡ L.name }
        requires parts { blank.parts ≡ L.parts }
        requires one_each { blank.parts ≡ seats }
        requires some { 0 < seats }
        ensures book { IfOk result (λ r. r.0 ≡ new_book capacity) }
        ensures seats { IfOk result (λ r. vec_len r.1 ≡ seats) }
        ensures no_receipts { IfOk result (λ r. All (λ seat. seat ≡ []) r.1.items) }
    {
        let (ledger, whole) = blank.open::<L>();
        let seated = seat_all(alloc, whole, seats)?;
        let book = Book {
            chan: Chan::new(alloc, capacity),
            opening: capacity,
            history: Vec::new(alloc),
            seats,
            ledger,
            weigh: PhantomData,
        };
        Ok((book, seated))
    }

    /// Makes the step, with an entry in the history and a receipt. `NoMemory`: no room for these.
    /// ```
    /// let _ = book.step(seat, Step::TrySend(5));       // Ok(Sent { filled: None })
    /// let _ = book.step(seat, Step::TryRecv);          // Ok(Got(5))
    /// ```
    pub fn step(
        &mut self,
        seat: &mut Seat<T, L, W, A>,
        step: Step<T>,
    ) -> Result<Reply<T, A>, NoMemory>
        ensures step { IfOk result (λ answer.
            IsRecorded self.old seat.old step answer self.new seat.new) }
        ensures unchanged { OnErr result (self.new ≡ self.old) }
        ensures seat_unchanged { OnErr result (seat.new ≡ seat.old) }
    {
        // All is allocated first, so that each step that is made is recorded.
        let alloc = *self.history.allocator();
        let drained = drain_len(&self.chan, &step);
        let room = Vec::with_capacity(alloc, drained)?;
        let more = Vec::with_capacity(alloc, drained)?;
        self.history.try_reserve(1)?;
        seat.receipts.try_reserve(1)?;
        let number = self.history.len();
        let reply = self.chan.step(step);
        let receipt_reply = copy_reply(&reply, room);
        let answer = copy_reply(&reply, more);
        add_weight::<T, A, L, W>(&mut self.ledger, &mut seat.share, &step, &reply);
        seat.receipts.push_reserved(Receipt {
            number,
            step,
            reply: receipt_reply,
        });
        self.history.push_reserved((step, reply));
        Ok(answer)
    }

    /// Compares the history with the receipts of these seats, by `differs`.
    /// ```
    /// book.close(seats);                               // Settled, where all seats are there
    /// ```
    pub fn close(&mut self, seats: Vec<Seat<T, L, W, A>, A>) -> Closed
    where
        T: Eq,
        ensures unchanged { self.new ≡ self.old }
        ensures missing { (result ≡ Closed.MissingSeat) ↔ (vec_len seats ≡ L.parts → ⊥) }
        ensures differs { (number : ℕ) → (result ≡ Closed.Differs number)
            ↔ (vec_len seats ≡ L.parts)
            × LeastDisagreement ⟦<(Step<T>, Reply<T, A>) as PartialEq>⟧.eq
            self.old.history seats.items number }
        ensures settled { (result ≡ Closed.Settled)
            ↔ (vec_len seats ≡ L.parts)
            × IsSettled ⟦<(Step<T>, Reply<T, A>) as PartialEq>⟧.eq
            self.old.history seats.items }
        ensures weights { vec_len seats ≡ L.parts
            → history_weight W.weight self.old.history ≡ lists_weight W.weight seats.items }
    {
        settled_if_nothing_differs::<T, A>();
        if seats.len() != self.seats {
            return Closed::MissingSeat;
        }
        let closed = match differs(&self.history, &seats) {
            Some(number) => Closed::Differs(number),
            None => Closed::Settled,
        };
        merge_all::<T, L, W, A>(&mut self.ledger, seats);
        closed
    }

    /// The capacity with which the channel was opened, or `None` if unbounded.
    pub fn opening(&self) -> Option<usize>
        ensures opening { result ≡ self.now.opening }
    {
        self.opening
    }

    /// The steps that were made, with their replies, in order.
    pub fn history(&self) -> &[(Step<T>, Reply<T, A>)]
        ensures history { result.now ≡ self.now.history }
        ensures conserved { Conserved (opens self.now.opening 1) (reverse self.now.history) }
    {
        messages_are_conserved::<T, A>();
        &self.history
    }

    /// The channel after the history's steps.
    pub fn channel(&self) -> &Chan<T, (), A>
        ensures channel { result.now ≡ self.now.channel }
        ensures represents { IsChannelOfHistory self.now }
    {
        &self.chan
    }
}
