//! Weights, added up in a ledger whose tokens take no bytes.
ghost use Rattle.std.specs.Prelude.{◌≡◌, ◌<◌, ◌+◌, [], vec_len, All, IfOk};
ghost use Rattle.flume_audit.specs.Weights.{lists_weight};

use crate::seat::Seat;
use crate::weigh::Weigh;
use flume_core::error::NoMemory;
use flume_model::step::{Reply, Step};
use std::alloc::Allocator;
use std::sync::ledger::{Book, Ledger, Share};

// A ledger's own call adds a number of the program; a weight is a definition: the proof adds it.
pub(crate) fn add_weight<T, A: Allocator, L: Ledger, W: Weigh<T, A>>(
    book: &mut Book<L>,
    share: &mut Share<L>,
    step: &Step<T>,
    reply: &Reply<T, A>,
)
    requires { 0 < share.old.parts }
    ensures total { book.new.total ≡ book.old.total + W.weight step.now reply.now }
    ensures amount { share.new.amount ≡ share.old.amount + W.weight step.now reply.now }
    ensures parts { share.new.parts ≡ share.old.parts }
{}

pub(crate) fn seat_all<T: Drop, L: Ledger, W: Weigh<T, A>, A: Allocator + Copy>(
    alloc: A,
    mut whole: Share<L>,
    seats: usize,
) -> Result<Vec<Seat<T, L, W, A>, A>, NoMemory>
    requires parts { whole.parts ≡ seats }
    requires amount { whole.amount ≡ 0 }
    ensures seats { IfOk result (λ list. vec_len list ≡ seats) }
    ensures no_receipts { IfOk result (λ list. All (λ seat. seat ≡ []) list.items) }
{
    let mut list = Vec::with_capacity(alloc, seats)?;
    for _i in 0..seats {
        list.push_reserved(Seat::new(alloc, whole.split_off(1, 0)));
    }
    Ok(list)
}

pub(crate) fn merge_all<T: Drop, L: Ledger, W: Weigh<T, A>, A: Allocator>(
    book: &mut Book<L>,
    mut seats: Vec<Seat<T, L, W, A>, A>,
)
    requires all { vec_len seats ≡ L.parts }
    requires some { 0 < L.parts }
    ensures total { book.new.total ≡ book.old.total }
    ensures weight { book.old.total ≡ lists_weight W.weight seats.items }
{
    let Some(last) = seats.pop() else {
        return;
    };
    let mut share = last.into_share();
    while let Some(seat) = seats.pop() {
        share.merge(seat.into_share());
    }
    book.audit(&mut share);
}
