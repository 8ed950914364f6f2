//! Why a line of a history or of a recording is wrong.

use flume_core::error::NoMemory;
use flume_script::ScriptOutput;
use flume_script::faults::{
    first_word, line_at, number_fault, opening_fault, step_fault, write_line_fault, write_place,
    write_shown,
};
use flume_script::reading::{number, part_at};
use judge_calls::call_texts::call_of;
use std::alloc::Allocator;

pub(crate) fn explain_input<A: Allocator + Copy>(
    alloc: A,
    input: &[u8],
    printed: &ScriptOutput<A>,
) -> Result<String<A>, NoMemory> {
    let mut text = String::new(alloc);
    if input.is_empty() {
        text.push_str("the input is empty\n")?;
        return Ok(text);
    }
    let (place, reason) = parts_of(&printed.text);
    let line = line_at(input, place);
    write_place(&mut text, place, line)?;
    match reason {
        _ if place == 1 => write_line_fault(&mut text, line, opening_fault(line))?,
        b"not a step\n" => explain_pair(&mut text, line)?,
        b"not a call\n" => explain_call(alloc, &mut text, behind(line, b": "))?,
        b"not an answer\n" => {
            text.push_str("'")?;
            write_shown(&mut text, behind(line, b" -> "))?;
            text.push_str("' is no answer")?;
        }
        b"out of turn\n" => explain_turn(&mut text, line)?,
        _ => text.push_str(
            "it is neither a thread's name, ': ' and a call, nor a name, ' -> ' and an answer",
        )?,
    }
    text.push_str("\n")?;
    Ok(text)
}

// The number and the reason in a text such as `line 2: not a step`.
fn parts_of(printed: &[u8]) -> (usize, &[u8]) {
    let printed = printed.strip_prefix(b"line ").unwrap_or(printed);
    let Some((digits, reason)) = part_at(printed, b':') else {
        return (1, printed);
    };
    let place = number(digits).unwrap_or(1);
    (place as usize, reason.strip_prefix(b" ").unwrap_or(reason))
}

fn parts_at<'l>(line: &'l [u8], mark: &[u8]) -> Option<(&'l [u8], &'l [u8])> {
    for place in 0..line.len() {
        if let Some(behind) = line[place..].strip_prefix(mark) {
            return Some((&line[..place], behind));
        }
    }
    None
}

fn behind<'l>(line: &'l [u8], mark: &[u8]) -> &'l [u8] {
    match parts_at(line, mark) {
        Some((_, behind)) => behind,
        None => &[],
    }
}

fn explain_pair<A: Allocator>(text: &mut String<A>, line: &[u8]) -> Result<(), NoMemory> {
    match parts_at(line, b" -> ") {
        Some((step, _)) => write_line_fault(text, step, step_fault(step)),
        None => Ok(text.push_str("there is no ' -> ' between a step and its answer")?),
    }
}

fn explain_turn<A: Allocator>(text: &mut String<A>, line: &[u8]) -> Result<(), NoMemory> {
    text.push_str(if parts_at(line, b" -> ").is_some() {
        "its thread has no call open, so none returns"
    } else {
        "its thread has a call open, which has to return first"
    })?;
    Ok(())
}

fn explain_call<A: Allocator + Copy>(
    alloc: A,
    text: &mut String<A>,
    call: &[u8],
) -> Result<(), NoMemory> {
    let (word, rest) = first_word(call);
    let mut numbered = Vec::new(alloc);
    numbered.extend_from_slice(word)?;
    numbered.extend_from_slice(b" 0")?;
    if call_of(&numbered).is_none() {
        text.push_str("'")?;
        write_shown(text, call)?;
        Ok(text.push_str("' is no call")?)
    } else if number(rest).is_some() {
        Ok(text.push_str("a zero stands before the number")?)
    } else {
        write_line_fault(text, call, number_fault(rest))
    }
}
