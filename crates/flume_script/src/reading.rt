//! Reads the lines of a script to steps.
ghost use Rattle.flume_script.specs.Reading.{IsReading};
ghost use Rattle.flume_script.specs.Script.{IsWordWithNumber, IsNoOpening, IsOpeningLine};
ghost use Rattle.flume_script.specs.Script.{IsNoLine, IsStepLine, LinesUpTo};
ghost use Rattle.std.specs.List.{All, AllZip};
ghost use Rattle.std.specs.Prelude.{IfErr, IfNone, IfOk, IfSome, IsTrue, MatchOption, SomeIff};
ghost use Rattle.std.specs.Prelude.{◌≡◌, ◌==◌, ℕ, ◌^◌, ◌<◌, ◌↔◌, List, [], ◌∷◌, ◌++◌};
ghost use Rattle.std.specs.Prelude.{false, length};
ghost use Rattle.std.specs.Str.Lines.{lines, strip_carriage_return};
ghost use Rattle.std.specs.Str.Parse.{IsNumeral, digits_value};

use crate::words::{step_with_number, step_without_number};
use flume_core::error::NoMemory;
use flume_model::step::Step;
use std::alloc::{AllocError, Allocator};
use std::str;

/// A script, of capacity `None` if unbounded, or its first wrong line, counted from 1.
#[derive(Drop)]
pub enum Reading<L, A: Allocator> {
    Right {
        capacity: Option<usize>,
        steps: Vec<L, A>,
    },
    Wrong {
        line: usize,
    },
}

/// What the lines after the first are: steps, or steps with more.
pub trait Line<'s>: Sized {
    ghost is_line: { List ℕ → Self → Type 0 };

    /// What the line is, if it is one of them.
    fn read(line: &'s [u8]) -> Option<Self>
        ensures value { MatchOption result (IsNoLine is_line line.now) (is_line line.now) };
}

impl Line<'_> for Step<u64> {
    ghost is_line = { IsStepLine };

    fn read(line: &[u8]) -> Option<Self> {
        step_of(line)
    }
}

/// What is before the first such byte, and after it.
/// ```
/// part_at(b"poll 2", b' ');          // Some((b"poll", b"2"))
/// part_at(b"drain", b' ');           // None
/// ```
pub fn part_at(bytes: &[u8], byte: u8) -> Option<(&[u8], &[u8])>
    ensures none { IfNone result (All (λ x. (x == byte) ≡ false) bytes.now) }
    ensures parts { IfSome result (λ r. bytes.now ≡ r.0.now ++ byte ∷ r.1.now) }
    ensures first { IfSome result (λ r. All (λ x. (x == byte) ≡ false) r.0.now) }
{
    let at = bytes.iter().position(|x| *x == byte)?;
    Some((&bytes[..at], &bytes[at + 1..]))
}

fn without_return(line: &[u8]) -> &[u8]
    ensures value { result.now ≡ strip_carriage_return line.now }
{
    match line {
        [front @ .., b'\r'] => front,
        _ => line,
    }
}

/// The first line, without its line feed and one carriage return before it, and what follows it.
/// ```
/// next_line(b"len\ndrain\n");        // Some((b"len", b"drain\n"))
/// next_line(b"drain");               // Some((b"drain", b""))
/// ```
#[tactic(auto, using(crate::proofs::ScriptLineLemmas::next_lines))]
pub fn next_line(rest: &[u8]) -> Option<(&[u8], &[u8])>
    ensures none { IfNone result (rest.now ≡ []) }
    ensures first { IfSome result (λ r. lines rest.now ≡ r.0.now ∷ lines r.1.now) }
    ensures shorter { IfSome result (λ r. length r.1.now < length rest.now) }
{
    match part_at(rest, b'\n') {
        Some((line, later)) => Some((without_return(line), later)),
        None if rest.is_empty() => None,
        None => Some((rest, &[])),
    }
}

/// The number that decimal digits are, if it fits 64 bits.
/// ```
/// number(b"007");                    // Some(7)
/// number(b"");                       // None
/// ```
#[tactic(auto, using(crate::proofs::ScriptNumberLemmas::numeral_is_text))]
pub fn number(digits: &[u8]) -> Option<u64>
    ensures value { SomeIff result
        (IsNumeral 10 digits.now × (digits_value 10 digits.now < 2 ^ 64))
        (digits_value 10 digits.now) }
{
    if digits.starts_with(b"+") {
        return None;
    }
    let text = str::from_utf8(digits).ok()?;
    text.parse::<u64>().ok()
}

fn number_after(line: &[u8], word: &[u8]) -> Option<u64>
    ensures value { MatchOption result ((n : ℕ) → ¬ IsWordWithNumber line.now word.now n)
        (λ n. IsWordWithNumber line.now word.now n) }
{
    let digits = line.strip_prefix(word)?;
    number(digits)
}

fn is_text(line: &[u8], word: &[u8]) -> bool
    ensures value { IsTrue result ↔ (line.now ≡ word.now) }
{
    line == word
}

/// The step that a line is, if any.
/// ```
/// step_of(b"poll 2");                // Some(Poll(2))
/// step_of(b"poll");                  // None
/// ```
pub fn step_of(line: &[u8]) -> Option<Step<u64>>
    ensures value { MatchOption result (IsNoLine IsStepLine line.now) (IsStepLine line.now) }
{
    if let Some(step) = step_without_number(line) {
        return Some(step);
    }
    let (word, digits) = part_at(line, b' ')?;
    step_with_number(word, number(digits)?)
}

/// The capacity at which a line opens a channel, if it does.
/// ```
/// opening_of(b"bounded 7");          // Some(Some(7))
/// opening_of(b"unbounded");          // Some(None)
/// opening_of(b"len");                // None
/// ```
pub fn opening_of(line: &[u8]) -> Option<Option<usize>>
    ensures value { MatchOption result (IsNoOpening line.now) (IsOpeningLine line.now) }
{
    if is_text(line, b"unbounded") {
        return Some(None);
    }
    let capacity = number_after(line, b"bounded ")?;
    Some(Some(capacity as usize))
}

fn read_lines<'s, L: Line<'s> + Drop, A: Allocator + Copy>(
    alloc: A,
    mut rest: &'s [u8],
) -> Result<Result<Vec<L, A>, usize>, NoMemory>
    ensures right { IfOk result (λ r. IfOk r (λ s. AllZip L.is_line (lines rest.now) s.items)) }
    ensures wrong { IfOk result (λ r. IfErr r (LinesUpTo L.is_line (lines rest.now))) }
    ensures within { IfOk result (λ r. IfErr r (λ place. place < length rest.now)) }
{
    let mut steps = Vec::new(alloc);
    while let Some((line, later)) = next_line(rest) {
        let Some(step) = L::read(line) else {
            return Ok(Err(steps.len()));
        };
        steps.push(step).map_err(AllocError::from)?;
        rest = later;
    }
    Ok(Ok(steps))
}

/// Reads a script up to its first wrong line. `NoMemory`: an allocation failed.
/// ```
/// read_script::<Step<u64>, _>(alloc, b"bounded 7\nlen\n")?;
/// // Right { capacity: Some(7), steps: [Len] }
/// read_script::<Step<u64>, _>(alloc, b"bounded 7\nlen\n\n")?;    // Wrong { line: 3 }
/// ```
pub fn read_script<'s, L: Line<'s> + Drop, A: Allocator + Copy>(
    alloc: A,
    input: &'s [u8],
) -> Result<Reading<L, A>, NoMemory>
    ensures value { IfOk result (λ reading. IsReading L.is_line input.now reading) }
{
    let Some((first, rest)) = next_line(input) else {
        return Ok(Reading::Wrong { line: 1 });
    };
    let Some(capacity) = opening_of(first) else {
        return Ok(Reading::Wrong { line: 1 });
    };
    match read_lines(alloc, rest)? {
        Ok(steps) => Ok(Reading::Right { capacity, steps }),
        Err(place) => Ok(Reading::Wrong { line: place + 2 }),
    }
}
