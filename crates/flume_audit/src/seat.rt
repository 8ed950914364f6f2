//! A user's place at an audit.
ghost use Rattle.std.specs.Prelude.{◌≡◌, [], List};
ghost use Rattle.flume_audit.specs.declared.receipt.Receipt.{Receipt};
ghost use Rattle.flume_audit.specs.Weights.{receipts_weight};

use crate::receipt::Receipt;
use crate::weigh::{Ones, Weigh};
use std::alloc::{Allocator, Global};
use std::convert::AsSlice;
use std::marker::{Model, PhantomData};
use std::sync::ledger::{Ledger, Share};

/// A user's receipts and one part of the ledger `L`: as many seats as it has parts are all of them.
#[derive(Drop)]
pub struct Seat<T, L: Ledger, W: Weigh<T, A> = Ones, A: Allocator = Global> {
    pub(crate) receipts: Vec<Receipt<T, A>, A>,
    pub(crate) share: Share<L>,
    weigh: PhantomData<W>,
}

impl<T, L: Ledger, W: Weigh<T, A>, A: Allocator> Model for Seat<T, L, W, A> {
    ghost use Rattle.std.specs.Prelude.{◌≡◌, List};
    ghost use Rattle.flume_audit.specs.declared.receipt.Receipt.{Receipt};
    ghost use Rattle.flume_audit.specs.Weights.{receipts_weight};

    ghost Value = { List (Receipt T A) };

    ghost view = { λ seat. seat.receipts.items };

    ghost invariant = { λ seat. (seat.share.parts ≡ 1)
        × (seat.share.amount ≡ receipts_weight W.weight seat.receipts.items) };
}

impl<T, L: Ledger, W: Weigh<T, A>, A: Allocator> Seat<T, L, W, A> {
    pub(crate) fn new(alloc: A, share: Share<L>) -> Self
        requires part { share.parts ≡ 1 }
        requires amount { share.amount ≡ 0 }
        ensures empty { result ≡ [] }
    {
        Seat {
            receipts: Vec::new(alloc),
            share,
            weigh: PhantomData,
        }
    }

    /// The receipts, in the order of the steps.
    pub fn receipts(&self) -> &[Receipt<T, A>]
        ensures receipts { result.now ≡ self.now }
    {
        &self.receipts
    }

    pub(crate) fn into_share(self) -> Share<L>
    where
        T: Drop,
        ensures part { result.parts ≡ 1 }
        ensures amount { result.amount ≡ receipts_weight W.weight self }
    {
        let Seat {
            receipts: _,
            share,
            weigh: _,
        } = self;
        share
    }
}

impl<T, L: Ledger, W: Weigh<T, A>, A: Allocator> AsSlice<Receipt<T, A>> for Seat<T, L, W, A> {
    ghost items = { λ seat. seat };

    fn as_slice(&self) -> &[Receipt<T, A>] {
        self.receipts()
    }
}
