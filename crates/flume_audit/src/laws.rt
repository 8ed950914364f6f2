//! Laws of the definitions.
ghost use Rattle.std.specs.Prelude.{◌↔◌, List, ℕ};
ghost use Rattle.flume_audit.specs.declared.receipt.Receipt.{Receipt};
ghost use Rattle.flume_audit.specs.Recorded.{History};
ghost use Rattle.flume_audit.specs.Settled.{DisagreeAt, IsSettled};

use flume_model::step::{Reply, Step};
use std::alloc::Allocator;

/// A history is settled exactly if it and the receipts disagree at no number. Does nothing.
pub fn settled_if_nothing_differs<T: Eq, A: Allocator>()
    ensures law { (history : History T A) (lists : List (List (Receipt T A)))
        → IsSettled ⟦<(Step<T>, Reply<T, A>) as PartialEq>⟧.eq history lists
        ↔ ((number : ℕ) → DisagreeAt ⟦<(Step<T>, Reply<T, A>) as PartialEq>⟧.eq
        history lists number → ⊥) }
{}
