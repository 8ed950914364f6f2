//! What a settled audit says.
ghost use Rattle.std.specs.Prelude.{◌≡◌, IfSome, length, sum_by};
ghost use Rattle.flume.specs.Settled.{IsSettled};

use flume::audit::Audit;
use flume::book::Book;
use flume::closed::Closed;
use flume::seat::Seat;
use flume::weigh::Ones;
use flume_model::step::{Reply, Step};
use std::alloc::Allocator;
use std::sync::ledger::Ledger;

/// Ends an audit, and answers its book if it settled.
pub fn settled_book<T, L, R, A>(
    audit: Audit<T, L, R, Ones, A>,
    seats: Vec<Seat<T, L, Ones, A>, A>,
) -> Option<Book<T, L, Ones, A>>
where
    T: Copy + Eq,
    L: Ledger,
    R: Drop,
    A: Allocator + Copy,
    ensures is_settled { IfSome result (λ book.
        IsSettled ⟦<(Step<T>, Reply<T, A>) as PartialEq>⟧.eq book.history seats.items) }
    ensures same_length { IfSome result (λ book. length book.history ≡ sum_by length seats.items) }
{
    let (closed, book) = audit.close(seats);
    match closed {
        Closed::Settled => Some(book),
        _ => None,
    }
}
