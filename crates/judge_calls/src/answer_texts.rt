//! The texts of answers.
ghost use Rattle.std.specs.Prelude.{MatchOption, IfOk, IfSome, OnOk, ◌≡◌, ◌==◌, ◌++◌, ℕ};
ghost use Rattle.std.specs.Prelude.{false, string_bytes, Bool, List, codes};
ghost use Rattle.std.specs.List.{All};
ghost use Rattle.std.specs.Fmt.{decimal};
ghost use Rattle.judge_calls.specs.declared.call.Answer.TheVariants.{Capacity, Flag};
ghost use Rattle.flume_script.specs.ReplyTexts.{spaced};
ghost use Rattle.judge_calls.specs.Texts.{answer_text, FitsWord, IsAnswerText, IsNoAnswer};
ghost use Rattle.judge_calls.specs.Texts.{IsNumberOf};

use crate::call::{Answer, Messages};
use crate::call_texts::is_text;
use crate::numbers::{number_of, numbers_of};
use flume_error::error::NoMemory;
use flume_script::reading::part_at;
use std::alloc::Allocator;

fn plain_answer<A: Allocator>(word: &[u8]) -> Option<Answer<u64, A>>
    requires no_space { All (λ x. (x == 32) ≡ false) word.now }
    requires no_list { (list : List ℕ) → ¬ (word.now ≡ codes "drained" ++ spaced list) }
    requires no_number { (n : ℕ) → FitsWord n → ¬ (word.now ≡ decimal n) }
    ensures value { MatchOption result (IsNoAnswer A word.now) (IsAnswerText word.now) }
    ensures number_of { (asks : Bool) → IfSome result (IsNumberOf asks) }
{
    match word {
        _ if is_text(word, b"sent") => Some(Answer::Sent),
        _ if is_text(word, b"full") => Some(Answer::Full),
        _ if is_text(word, b"empty") => Some(Answer::Empty),
        _ if is_text(word, b"disconnected") => Some(Answer::Disconnected),
        _ if is_text(word, b"timeout") => Some(Answer::Timeout),
        _ if is_text(word, b"nomemory") => Some(Answer::NoMemory),
        _ if is_text(word, b"dropped") => Some(Answer::Dropped),
        _ if is_text(word, b"done") => Some(Answer::Done),
        _ if is_text(word, b"noend") => Some(Answer::NoEnd),
        _ if is_text(word, b"countfull") => Some(Answer::CountFull),
        _ if is_text(word, b"true") => Some(Answer::Flag(true)),
        _ if is_text(word, b"false") => Some(Answer::Flag(false)),
        _ if is_text(word, b"none") => Some(Answer::Capacity(None)),
        _ if is_text(word, b"unbounded") => Some(Answer::Unbounded),
        _ => None,
    }
}

fn number_answer<A: Allocator>(number: u64, asks: bool) -> Answer<u64, A>
    ensures text { IsAnswerText (decimal number) result }
    ensures number_of { IsNumberOf asks result }
{
    if asks {
        Answer::Capacity(Some(number as usize))
    } else {
        Answer::Number(number as usize)
    }
}

fn short_answer<A: Allocator>(text: &[u8], asks: bool) -> Option<Answer<u64, A>>
    requires no_list { (list : List ℕ) → ¬ (text.now ≡ codes "drained" ++ spaced list) }
    ensures value { MatchOption result (IsNoAnswer A text.now)
        (λ answer. IsAnswerText text.now answer × IsNumberOf asks answer) }
{
    if let Some((word, digits)) = part_at(text, b' ') {
        if !is_text(word, b"got") {
            return None;
        }
        let message = number_of(digits)?;
        return Some(Answer::Got(message));
    }
    match number_of(text) {
        Some(number) => Some(number_answer(number, asks)),
        None => plain_answer(text),
    }
}

/// Reads an answer, a number as a capacity if the call `asks` for one. `NoMemory`: none for a list.
/// ```
/// answer_of(alloc, b"got 7", false)?;    // Some(Got(7))
/// answer_of(alloc, b"7", true)?;         // Some(Capacity(Some(7)))
/// answer_of(alloc, b"got", false)?;      // None
/// ```
pub fn answer_of<A: Allocator + Copy>(
    alloc: A,
    text: &[u8],
    asks: bool,
) -> Result<Option<Answer<u64, A>>, NoMemory>
    ensures value { IfOk result (λ r. MatchOption r (IsNoAnswer A text.now)
        (λ answer. IsAnswerText text.now answer × IsNumberOf asks answer)) }
{
    let Some(numbers) = text.strip_prefix(b"drained") else {
        return Ok(short_answer(text, asks));
    };
    match numbers_of(alloc, numbers)? {
        None => Ok(None),
        Some(list) => Ok(Some(Answer::Drained(Messages::new(list)))),
    }
}

fn write_flag<A: Allocator>(text: &mut String<A>, flag: bool) -> Result<(), NoMemory>
    ensures value { OnOk result (string_bytes text.new
        ≡ string_bytes text.old ++ answer_text {A = A} (Flag flag)) }
{
    if flag {
        text.push_str("true")?;
    } else {
        text.push_str("false")?;
    }
    Ok(())
}

fn write_capacity<A: Allocator>(
    text: &mut String<A>,
    capacity: Option<usize>,
) -> Result<(), NoMemory>
    ensures value { OnOk result (string_bytes text.new
        ≡ string_bytes text.old ++ answer_text {A = A} (Capacity capacity)) }
{
    match capacity {
        None => text.push_str("none")?,
        Some(capacity) => write!(text, "{capacity}")?,
    }
    Ok(())
}

fn write_drained<A: Allocator>(text: &mut String<A>, list: &[u64]) -> Result<(), NoMemory>
    ensures value { OnOk result (string_bytes text.new
        ≡ string_bytes text.old ++ (codes "drained" ++ spaced list.now)) }
{
    text.push_str("drained")?;
    for message in list {
        write!(text, " {message}")?;
    }
    Ok(())
}

/// Adds the text of an answer. `NoMemory`: the text couldn't grow, and may have a part of this.
/// ```
/// let mut text = String::new(alloc);
/// write_answer(&mut text, &Answer::Got(7))?;
/// text.as_str();                     // "got 7"
/// ```
pub fn write_answer<A: Allocator>(
    text: &mut String<A>,
    answer: &Answer<u64, A>,
) -> Result<(), NoMemory>
    ensures value { OnOk result
        (string_bytes text.new ≡ string_bytes text.old ++ answer_text answer.now) }
{
    Ok(match answer {
        Answer::Sent => text.push_str("sent")?,
        Answer::Full => text.push_str("full")?,
        Answer::Got(message) => write!(text, "got {message}")?,
        Answer::Empty => text.push_str("empty")?,
        Answer::Disconnected => text.push_str("disconnected")?,
        Answer::Timeout => text.push_str("timeout")?,
        Answer::NoMemory => text.push_str("nomemory")?,
        Answer::Dropped => text.push_str("dropped")?,
        Answer::Drained(messages) => write_drained(text, messages.as_slice())?,
        Answer::Done => text.push_str("done")?,
        Answer::NoEnd => text.push_str("noend")?,
        Answer::CountFull => text.push_str("countfull")?,
        Answer::Number(number) => write!(text, "{number}")?,
        Answer::Flag(flag) => write_flag(text, *flag)?,
        Answer::Capacity(capacity) => write_capacity(text, *capacity)?,
        Answer::Unbounded => text.push_str("unbounded")?,
    })
}
