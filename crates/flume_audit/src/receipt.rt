//! The receipt of a step on an audited channel.
ghost use Rattle.std.specs.Prelude.{◌≡◌, List};

use flume_model::step::{Reply, Step};
use std::alloc::{Allocator, Global};
use std::convert::AsSlice;

/// A step that was made, with its reply; `number` steps were made on the channel before it.
#[derive(Clone, Drop)]
#[derive_where(Debug, PartialEq, Eq; T)]
pub struct Receipt<T, A: Allocator = Global> {
    pub number: usize,
    pub step: Step<T>,
    pub reply: Reply<T, A>,
}

/// What has a list of receipts: a seat, a `Vec` of them, and all else of which std's `AsSlice` lends
/// a slice of receipts.
/// ```
/// let receipts: Vec<Receipt<u64>> = Vec::new(alloc);
/// receipts.list().len();             // 0
/// ```
pub trait Receipts<T, A: Allocator> {
    ghost use Rattle.std.specs.Prelude.{◌≡◌, List};
    ghost use Rattle.flume_audit.specs.declared.receipt.Receipt.{Receipt};

    ghost receipts: { Self → List (Receipt T A) };

    /// The receipts.
    fn list(&self) -> &[Receipt<T, A>]
        ensures list { result.now ≡ receipts self.now };
}

impl<T, A: Allocator, H: AsSlice<Receipt<T, A>>> Receipts<T, A> for H {
    ghost receipts = { λ holder. H.items holder };

    fn list(&self) -> &[Receipt<T, A>] {
        self.as_slice()
    }
}
