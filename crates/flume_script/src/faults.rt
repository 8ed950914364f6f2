//! Why a line of a script is wrong. `NoMemory`: a text couldn't grow; a part may have been added.
ghost use Rattle.std.specs.Prelude.{◌≡◌, ◌==◌, false};
ghost use Rattle.std.specs.List.{All};

use crate::reading::{Reading, next_line, number, part_at, read_script};
use crate::words::{step_with_number, step_without_number};
use flume_core::error::NoMemory;
use flume_model::step::Step;
use std::alloc::Allocator;

/// Why a line is wrong.
#[derive(Clone, Copy, Debug, PartialEq, Eq, Drop)]
pub enum LineFault {
    ByteOrderMark,
    Empty,
    LeadingSpace,
    NoOpening,
    NoStep,
    MoreAfterWord,
    RecvWithoutKind,
    NoNumber,
    NotNumber,
    NumberPast64Bits,
    MoreAfterNumber,
}

/// What is before the first space of a line, and after it.
/// ```
/// first_word(b"poll 2 3");           // (b"poll", b"2 3")
/// first_word(b"drain");              // (b"drain", b"")
/// ```
pub fn first_word(line: &[u8]) -> (&[u8], &[u8])
    ensures no_space { All (λ x. (x == 32) ≡ false) result.0.now }
{
    match part_at(line, b' ') {
        Some(parts) => parts,
        None => (line, &[]),
    }
}

/// Why a text isn't a number alone.
/// ```
/// number_fault(b"");                 // NoNumber
/// number_fault(b"5x");               // NotNumber
/// number_fault(b"5 6");              // MoreAfterNumber
/// ```
pub fn number_fault(text: &[u8]) -> LineFault {
    let (digits, _) = first_word(text);
    if text.is_empty() {
        LineFault::NoNumber
    } else if number(digits).is_some() {
        LineFault::MoreAfterNumber
    } else if !digits.is_empty() && digits.iter().all(|x| x.is_ascii_digit()) {
        LineFault::NumberPast64Bits
    } else {
        LineFault::NotNumber
    }
}

/// Why a first line opens no channel.
/// ```
/// opening_fault(b"bounded");         // NoNumber
/// opening_fault(b"unbounded 7");     // MoreAfterWord
/// ```
pub fn opening_fault(line: &[u8]) -> LineFault {
    if line.starts_with(b"\xef\xbb\xbf")
        || line.starts_with(b"\xff\xfe")
        || line.starts_with(b"\xfe\xff")
    {
        return LineFault::ByteOrderMark;
    }
    let (word, rest) = first_word(line);
    match word {
        b"unbounded" => LineFault::MoreAfterWord,
        b"bounded" => number_fault(rest),
        _ if line.is_empty() => LineFault::Empty,
        _ => LineFault::NoOpening,
    }
}

/// Why a later line is no step.
/// ```
/// step_fault(b"send");               // NoNumber
/// step_fault(b"len 7");              // MoreAfterWord
/// step_fault(b"length");             // NoStep
/// ```
pub fn step_fault(line: &[u8]) -> LineFault {
    let (word, rest) = first_word(line);
    if line.is_empty() {
        LineFault::Empty
    } else if word.is_empty() {
        LineFault::LeadingSpace
    } else if word == b"recv".as_slice() {
        LineFault::RecvWithoutKind
    } else if step_without_number(word).is_some() {
        LineFault::MoreAfterWord
    } else if step_with_number(word, 0).is_some() {
        number_fault(rest)
    } else {
        LineFault::NoStep
    }
}

/// Adds the first hundred bytes, one that isn't printable ASCII as `\x` and two digits.
pub fn write_shown<A: Allocator>(text: &mut String<A>, bytes: &[u8]) -> Result<(), NoMemory> {
    for byte in bytes.iter().take(100) {
        match *byte {
            b' '..=b'~' => text.push(char::from(*byte))?,
            byte => write!(text, "\\x{byte:02x}")?,
        }
    }
    Ok(())
}

/// Adds why a line is wrong.
pub fn write_line_fault<A: Allocator>(
    text: &mut String<A>,
    line: &[u8],
    fault: LineFault,
) -> Result<(), NoMemory> {
    let (word, rest) = first_word(line);
    let (before, shown, after): (&str, &[u8], &str) = match fault {
        LineFault::NoStep => ("there is no step '", word, "'"),
        LineFault::MoreAfterWord => ("there is more after '", word, "'"),
        LineFault::NotNumber => ("'", rest, "' is no number"),
        _ => (words_of(fault), &[], ""),
    };
    text.push_str(before)?;
    write_shown(text, shown)?;
    text.push_str(after)?;
    Ok(())
}

fn words_of(fault: LineFault) -> &'static str {
    match fault {
        LineFault::ByteOrderMark => {
            "it begins with a byte order mark: save it as plain text without one"
        }
        LineFault::Empty => "the line is empty",
        LineFault::LeadingSpace => "the line begins with a space",
        LineFault::NoOpening => "the first line is 'unbounded' or 'bounded N'",
        LineFault::RecvWithoutKind => "'recv' takes one of block, plain, stream, arm",
        LineFault::NoNumber => "a number is missing",
        LineFault::NumberPast64Bits => "the number is greater than 18446744073709551615",
        LineFault::MoreAfterNumber => "there is more after the number",
        _ => "",
    }
}

/// The line with this number, counted from 1; empty if there is none.
/// ```
/// line_at(b"unbounded\nlen\n", 2);   // b"len"
/// ```
pub fn line_at(input: &[u8], number: usize) -> &[u8] {
    let (mut found, mut rest): (&[u8], &[u8]) = (&[], input);
    for _ in 0..number {
        let Some((line, later)) = next_line(rest) else {
            return &[];
        };
        found = line;
        rest = later;
    }
    found
}

/// Adds which line is wrong.
pub fn write_place<A: Allocator>(
    text: &mut String<A>,
    number: usize,
    line: &[u8],
) -> Result<(), NoMemory> {
    write!(text, "line {number} is '")?;
    write_shown(text, line)?;
    text.push_str("': ")?;
    Ok(())
}

/// Which line of a script is the first wrong one, and why; empty if none is.
/// ```
/// explain_script(alloc, b"unbounded\nlen 7\n")?;
/// // "line 2 is 'len 7': there is more after 'len'\n"
/// ```
pub fn explain_script<A: Allocator + Copy>(alloc: A, input: &[u8]) -> Result<String<A>, NoMemory> {
    let mut text = String::new(alloc);
    if input.is_empty() {
        text.push_str("the input is empty\n")?;
        return Ok(text);
    }
    let Reading::Wrong { line: number } = read_script::<Step<u64>, A>(alloc, input)? else {
        return Ok(text);
    };
    let line = line_at(input, number);
    let fault = if number == 1 {
        opening_fault(line)
    } else {
        step_fault(line)
    };
    write_place(&mut text, number, line)?;
    write_line_fault(&mut text, line, fault)?;
    text.push_str("\n")?;
    Ok(text)
}
