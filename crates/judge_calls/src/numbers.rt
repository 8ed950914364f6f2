//! Reads numbers as they are printed, with no sign and no zero in front.
ghost use Rattle.std.specs.Prelude.{MatchOption, IfOk, ◌≡◌, ◌==◌, ◌++◌, ℕ, false, List};
ghost use Rattle.std.specs.List.{All};
ghost use Rattle.std.specs.Fmt.{decimal};
ghost use Rattle.flume_script.specs.ReplyTexts.{spaced};
ghost use Rattle.judge_calls.specs.Texts.{FitsWord, behind_space};

use flume_error::error::NoMemory;
use flume_script::reading::{number, part_at};
use std::alloc::{AllocError, Allocator};

pub(crate) fn number_of(text: &[u8]) -> Option<u64>
    ensures value { MatchOption result ((n : ℕ) → FitsWord n → ¬ (text.now ≡ decimal n))
        (λ n. (text.now ≡ decimal n) × FitsWord n) }
{
    if text.len() > 1 && text[0] == b'0' {
        return None;
    }
    number(text)
}

pub(crate) fn numbers_of<A: Allocator + Copy>(
    alloc: A,
    text: &[u8],
) -> Result<Option<Vec<u64, A>>, NoMemory>
    ensures value { IfOk result (λ r. MatchOption r
        ((list : List ℕ) → All FitsWord list → ¬ (text.now ≡ spaced list))
        (λ list. (text.now ≡ spaced list.items) × All FitsWord list.items)) }
{
    let mut list = Vec::new(alloc);
    let mut rest = match text {
        [] => None,
        [b' ', numbers @ ..] => Some(numbers),
        _ => return Ok(None),
    };
    while let Some(numbers) = rest {
        let (digits, later) = first_of(numbers);
        let Some(number) = number_of(digits) else {
            return Ok(None);
        };
        list.push(number).map_err(AllocError::from)?;
        rest = later;
    }
    Ok(Some(list))
}

fn first_of(numbers: &[u8]) -> (&[u8], Option<&[u8]>)
    ensures parts { numbers.now ≡ result.0.now ++ behind_space result.1 }
    ensures first { All (λ x. (x == 32) ≡ false) result.0.now }
{
    match part_at(numbers, b' ') {
        None => (numbers, None),
        Some((digits, later)) => (digits, Some(later)),
    }
}
