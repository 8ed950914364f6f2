//! The lines of the items that explain a recording.
ghost use Rattle.std.specs.Prelude.{IfOk, OnOk, ◌≡◌, ◌∷◌, ◌++◌, string_bytes};
ghost use Rattle.judge_calls.specs.Recordings.{names_of};
ghost use Rattle.judge_verdicts.specs.ItemLines.{item_line, item_lines, step_text};

use flume_core::error::NoMemory;
use flume_model::step::Step;
use flume_script::words::parts_of;
use flume_script::writing::write_reply;
use judge_calls::event::Item;
use judge_calls::writing::write_event;
use std::alloc::Allocator;

pub(crate) fn write_items<A: Allocator + Copy>(
    alloc: A,
    first: &[u8],
    names: &[&[u8]],
    items: &[Item<u64, A>],
) -> Result<Vec<u8, A>, NoMemory>
    ensures value { IfOk result (λ text.
        text.items ≡ first.now ++ 10 ∷ item_lines (names_of names.now) items.now) }
{
    let mut text = Vec::new(alloc);
    text.extend_from_slice(first)?;
    text.extend_from_slice(b"\n")?;
    for item in items {
        let line = line_of(alloc, names, item)?;
        text.extend_from_slice(&line)?;
    }
    Ok(text)
}

fn line_of<A: Allocator + Copy>(
    alloc: A,
    names: &[&[u8]],
    item: &Item<u64, A>,
) -> Result<Vec<u8, A>, NoMemory>
    ensures value { IfOk result (λ line. line.items ≡ item_line (names_of names.now) item.now) }
{
    match item {
        Item::Happens(event) => {
            let mut line = write_event(alloc, names, event)?;
            line.extend_from_slice(b"\n")?;
            Ok(line)
        }
        Item::Makes {
            thread,
            step,
            reply,
        } => {
            let mut rest = String::new(alloc);
            rest.push_str(" makes ")?;
            write_step(&mut rest, step)?;
            rest.push_str(" -> ")?;
            write_reply(&mut rest, reply)?;
            let mut line = Vec::new(alloc);
            line.extend_from_slice(b"  ")?;
            line.extend_from_slice(names.get(*thread).copied().unwrap_or(&[]))?;
            line.extend_from_slice(rest.as_bytes())?;
            Ok(line)
        }
    }
}

fn write_step<A: Allocator>(text: &mut String<A>, step: &Step<u64>) -> Result<(), NoMemory>
    ensures value { OnOk result
        (string_bytes text.new ≡ string_bytes text.old ++ step_text step.now) }
{
    let (word, number) = parts_of(step);
    match number {
        None => text.push_str(word)?,
        Some(number) => write!(text, "{word} {number}")?,
    }
    Ok(())
}
