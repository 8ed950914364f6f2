//! The texts that are printed of a recording.
ghost use Rattle.std.specs.Prelude.{IfOk, OnOk, ◌≡◌, ◌++◌, string_bytes};
ghost use Rattle.judge_verdicts.specs.CallsText.{but_text, fault_text, line_text, or_text};
ghost use Rattle.judge_verdicts.specs.CallsText.{recorded_text};

use flume_core::error::NoMemory;
use judge_calls::answer_texts::write_answer;
use judge_calls::call::Answer;
use judge_calls::call_texts::write_call;
use judge_calls::event::Event;
use judge_calls::fault::Fault;
use std::alloc::Allocator;

pub(crate) fn write_line<A: Allocator + Copy>(
    alloc: A,
    number: usize,
    rest: &str,
) -> Result<Vec<u8, A>, NoMemory>
    ensures value { IfOk result (λ text. text.items ≡ line_text number rest.now) }
{
    let mut text = String::new(alloc);
    writeln!(text, "line {number}: {rest}")?;
    Ok(text.into_bytes())
}

pub(crate) fn write_fault<A: Allocator + Copy>(
    alloc: A,
    number: usize,
    fault: Fault,
) -> Result<Vec<u8, A>, NoMemory>
    ensures value { IfOk result (λ text. text.items ≡ line_text number (fault_text fault)) }
{
    let rest = match fault {
        Fault::NoOpening => "not an opening",
        Fault::NoEvent => "not an event",
        Fault::NoCall => "not a call",
        Fault::NoAnswer => "not an answer",
    };
    write_line(alloc, number, rest)
}

pub(crate) fn write_break<A: Allocator + Copy>(
    alloc: A,
    number: usize,
    event: &Event<u64, A>,
    answers: &[Answer<u64, A>],
) -> Result<Vec<u8, A>, NoMemory>
    ensures value { IfOk result (λ text.
        text.items ≡ line_text number (recorded_text event.now ++ but_text answers.now)) }
{
    let mut rest = String::new(alloc);
    match event {
        Event::Begins { call, .. } => write_call(&mut rest, call)?,
        Event::Returns { answer, .. } => write_answer(&mut rest, answer)?,
    }
    write_but(&mut rest, answers)?;
    write_line(alloc, number, &rest)
}

fn write_but<A: Allocator>(text: &mut String<A>, answers: &[Answer<u64, A>]) -> Result<(), NoMemory>
    ensures value { OnOk result
        (string_bytes text.new ≡ string_bytes text.old ++ but_text answers.now) }
{
    let Some((first, others)) = answers.split_first() else {
        return Ok(());
    };
    text.push_str(", but ")?;
    write_answer(text, first)?;
    write_or(text, others)
}

fn write_or<A: Allocator>(text: &mut String<A>, answers: &[Answer<u64, A>]) -> Result<(), NoMemory>
    ensures value { OnOk result
        (string_bytes text.new ≡ string_bytes text.old ++ or_text answers.now) }
{
    for answer in answers {
        text.push_str(" or ")?;
        write_answer(text, answer)?;
    }
    Ok(())
}
