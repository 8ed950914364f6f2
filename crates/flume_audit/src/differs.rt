//! Where a history and receipts disagree.
ghost use Rattle.std.specs.Prelude.{◌≡◌, ◌<◌, ◌≤◌, ◌==◌, ◌↔◌, ℕ, IfNone, IfSome, IsTrue};
ghost use Rattle.std.specs.Prelude.{[], ◌∷◌, Any, filter, map, MatchOption, option_map};
ghost use Rattle.std.specs.List.Sorted.{IsPartitionPoint};
ghost use Rattle.flume_audit.specs.Settled.{DisagreeAt, LeastDisagreement, NotAbove};
ghost use Rattle.flume_audit.specs.Settled.{has_one_receipt, receipts_at, step_and_reply};
ghost use Rattle.flume_audit.specs.Only.{only};
ghost use Rattle.flume_audit.specs.Misplaced.{IsLeast, Misplaced, lesser};

use crate::receipt::{Receipt, Receipts};
use flume_model::step::{Reply, Step};
use std::alloc::Allocator;

/// The least number at which they disagree: not exactly one receipt has it and equals the entry, or
/// one that has it isn't above the one before, or one is past this end.
/// ```
/// let history: [(Step<u64>, Reply<u64>); 1] = [(Step::TrySend(1), Reply::Full(1))];
/// let receipts: Vec<Receipt<u64>> = Vec::new(alloc);
/// differs(&history, &[receipts]);    // Some(0): no receipt has its number
/// ```
pub fn differs<T: Eq, A: Allocator, H: Receipts<T, A>>(
    history: &[(Step<T>, Reply<T, A>)],
    seats: &[H],
) -> Option<usize>
    ensures some { IfSome result (λ number. LeastDisagreement
        ⟦<(Step<T>, Reply<T, A>) as PartialEq>⟧.eq
        history.now (map H.receipts seats.now) number) }
    ensures none { IfNone result ((number : ℕ)
        → DisagreeAt ⟦<(Step<T>, Reply<T, A>) as PartialEq>⟧.eq
        history.now (map H.receipts seats.now) number → ⊥) }
{
    let end = first_misplaced(history.len(), seats);
    for number in 0..end.unwrap_or(history.len()) {
        if !has_receipt_at(&history[number], number, seats) {
            return Some(number);
        }
    }
    end
}

fn first_misplaced<T, A: Allocator, H: Receipts<T, A>>(length: usize, seats: &[H]) -> Option<usize>
    ensures least { IsLeast (λ number. Any (Misplaced length number) (map H.receipts seats.now))
        result }
{
    let mut least = None;
    for seat in seats {
        least = lesser(least, misplaced_in(length, seat.list()));
    }
    least
}

fn misplaced_in<T, A: Allocator>(length: usize, list: &[Receipt<T, A>]) -> Option<usize>
    ensures least { IsLeast (λ number. Misplaced length number list.now) result }
{
    let past = if is_past(length, list) {
        Some(length)
    } else {
        None
    };
    lesser(first_not_above(list), past)
}

fn is_past<T, A: Allocator>(length: usize, list: &[Receipt<T, A>]) -> bool
    ensures past { IsTrue result ↔ Any (λ receipt. length ≤ receipt.number) list.now }
{
    list.iter().any(|receipt| receipt.number >= length)
}

fn first_not_above<T, A: Allocator>(list: &[Receipt<T, A>]) -> Option<usize>
    ensures least { IsLeast (λ number. NotAbove number list.now) result }
{
    let mut rest = list;
    let mut least = None;
    while let [before, receipt, ..] = rest {
        if receipt.number <= before.number {
            least = lesser(least, Some(receipt.number));
        }
        rest = &rest[1..];
    }
    least
}

fn lesser(first: Option<usize>, second: Option<usize>) -> Option<usize>
    ensures lesser { result ≡ lesser first second }
{
    match (first, second) {
        (Some(one), Some(other)) => Some(one.min(other)),
        (None, _) => second,
        (_, None) => first,
    }
}

fn has_receipt_at<T: Eq, A: Allocator, H: Receipts<T, A>>(
    entry: &(Step<T>, Reply<T, A>),
    number: usize,
    seats: &[H],
) -> bool
    requires before { (misplaced : ℕ) → Any (NotAbove misplaced) (map H.receipts seats.now)
        → number < misplaced }
    ensures sole { result ≡ has_one_receipt ⟦<(Step<T>, Reply<T, A>) as PartialEq>⟧.eq entry.now
        (receipts_at number (map H.receipts seats.now)) }
{
    match sole_receipt_at(number, seats) {
        Some(receipt) => is_receipt_of(receipt, entry),
        None => false,
    }
}

fn sole_receipt_at<T, A: Allocator, H: Receipts<T, A>>(
    number: usize,
    seats: &[H],
) -> Option<&Receipt<T, A>>
    requires before { (misplaced : ℕ) → Any (NotAbove misplaced) (map H.receipts seats.now)
        → number < misplaced }
    ensures only { option_map (λ receipt. receipt.now) result
        ≡ only (receipts_at number (map H.receipts seats.now)) }
{
    let mut only: Option<&Receipt<T, A>> = None;
    for seat in seats {
        if let Some(receipt) = receipt_at(number, seat.list()) {
            if only.is_some() {
                return None;
            }
            only = Some(receipt);
        }
    }
    only
}

fn receipt_at<T, A: Allocator>(number: usize, list: &[Receipt<T, A>]) -> Option<&Receipt<T, A>>
    requires before { (misplaced : ℕ) → NotAbove misplaced list.now → number < misplaced }
    ensures sole { MatchOption result
        (filter (λ receipt. receipt.number == number) list.now ≡ [])
        (λ sole. filter (λ receipt. receipt.number == number) list.now ≡ sole.now ∷ []) }
{
    match list.get(place_of(number, list)) {
        Some(receipt) if receipt.number == number => Some(receipt),
        _ => None,
    }
}

// The list rises below the least misplaced number, and no higher one is asked for.
fn place_of<T, A: Allocator>(number: usize, list: &[Receipt<T, A>]) -> usize
    requires before { (misplaced : ℕ) → NotAbove misplaced list.now → number < misplaced }
    ensures place { IsPartitionPoint (λ receipt. receipt.number < number)
        (λ receipt. number ≤ receipt.number) list.now result }
{
    list.partition_point(|receipt| receipt.number < number)
}

fn is_receipt_of<T: Eq, A: Allocator>(
    receipt: &Receipt<T, A>,
    entry: &(Step<T>, Reply<T, A>),
) -> bool
    ensures same { result ≡ ⟦<(Step<T>, Reply<T, A>) as PartialEq>⟧.eq (step_and_reply receipt.now)
        entry.now }
{
    receipt.step == entry.0 && receipt.reply == entry.1
}
