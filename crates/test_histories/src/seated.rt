//! Books in one thread: a missing seat is found, and no book is made if a growth is refused.
ghost use Rattle.std.specs.Prelude.{◌≡◌};

use crate::fixtures::{Heap, holds};
use flume_audit::book::Book;
use flume_audit::closed::Closed;
use flume_audit::weigh::Ones;
use std::alloc::Global;
use std::marker::Brand;
use std::process::Abort;
use std::sync::ledger::{Blank, Ledger};
use test_support::counting::Counting;

const MOST_GROWTHS: u64 = 9;

// What closing a new book of two seats answers if this many are handed in. `None`: it isn't made.
fn close_new_book<L: Ledger>(heap: Heap<'_>, blank: Blank, seat_count: usize) -> Option<Closed>
    requires name { blank.name ≡ L.name }
    requires parts { blank.parts ≡ L.parts }
    requires two { blank.parts ≡ 2 }
{
    let opened = Book::<u64, L, Ones, Heap<'_>>::new(heap, blank, None, 2);
    let (mut book, mut seats) = opened.ok()?;
    seats.truncate(seat_count);
    Some(book.close(seats))
}

#[test]
fn a_missing_seat_is_found(rt: HostRuntime) {
    let heap = Counting::new(rt.alloc());
    for seat_count in [1, 0] {
        let closed = close_new_book::<Brand>(&heap, Blank::new(2), seat_count);
        let is_missing = matches!(closed, Some(Closed::MissingSeat));
        holds(&rt, ("closed", "no seat is missing"), is_missing);
    }
}

// How many growths of a new book are refused: each alone, or with all after it up to `last`.
fn count_refused(rt: &impl Abort, alloc: Global, last: Option<u64>) -> u64 {
    let heap = Counting::new(alloc);
    for growth in 1..MOST_GROWTHS {
        heap.refuse_between(growth, last.unwrap_or(growth));
        let closed = close_new_book::<Brand>(&heap, Blank::new(2), 2);
        let is_refused = heap.refusals() > 0;
        let truth = match closed {
            None => is_refused,
            Some(closed) => !is_refused && matches!(closed, Closed::Settled),
        };
        holds(rt, ("opened", "refused otherwise than the memory"), truth);
        holds(rt, ("opened", "blocks are left"), heap.live() == 0);
        if !is_refused {
            return growth.wrapping_sub(1);
        }
    }
    MOST_GROWTHS
}

#[test]
fn no_book_is_made_if_a_growth_is_refused(rt: HostRuntime) {
    for last in [None, Some(u64::MAX)] {
        let refused = count_refused(&rt, rt.alloc(), last);
        let is_some = refused > 0 && refused < MOST_GROWTHS;
        holds(&rt, ("opened", "refused never, or always"), is_some);
    }
}
