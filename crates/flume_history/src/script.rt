//! Histories as text: steps with recorded replies.
ghost use Rattle.flume_core.specs.Represents.{Represents};
ghost use Rattle.flume_history.specs.HistoryText.{IsLawfulText, IsPairLine, IsTextOf};
ghost use Rattle.flume_history.specs.HistoryText.{Judges, Shows};
ghost use Rattle.flume_history.specs.HistoryText.{break_text};
ghost use Rattle.flume_model.specs.Channel.{channel};
ghost use Rattle.flume_model.specs.Log.{Log, Opening};
ghost use Rattle.flume_model.specs.declared.step.Reply.{Reply};
ghost use Rattle.flume_script.specs.ReplyTexts.{reply_text};
ghost use Rattle.flume_script.specs.Script.{IsScript};
ghost use Rattle.std.specs.Prelude.{IfNone, IfOk, IfSome, ◌≡◌, ℕ, List, [], ◌∷◌, ◌++◌, codes};
ghost use Rattle.std.specs.Str.Lines.{lines};

mod reading;

use crate::follow::handed_in;
use flume_core::chan::Chan;
use flume_core::error::NoMemory;
use flume_model::step::{Reply, Step};
use flume_script::reading::{Reading, read_script};
use flume_script::writing::write_reply;
use flume_script::{ScriptOutput, refuse};
use reading::Pair;
use std::alloc::Allocator;

/// Whether a correct channel could have produced the history in a script with ` -> ` and a reply
/// behind each step. `NoMemory`: an allocation failed.
/// - If a line is wrong, the text and the status are `run_script`'s: all lines are read first.
/// - If the lines are a history, the text is `correct`, and the status 0.
/// - Else the text names the first line whose reply isn't lawful, this reply, and the lawful one:
///   the channel's own, and ` or ` `NoMemory` if that is too. The status is 1.
/// ```
/// let input = b"unbounded\ntry_send 42 -> sent\ntry_recv -> got 41\n";
/// let script = check_script(alloc, input)?;
/// script.text;                       // "line 3: got 41, but got 42\n"
/// script.status;                     // 1
/// ```
pub fn check_script<A: Allocator + Copy>(
    alloc: A,
    input: &[u8],
) -> Result<ScriptOutput<A>, NoMemory>
    ensures judges { IfOk result (λ output. Judges A input.now output.text.items output.status) }
{
    match read_script(alloc, input)? {
        Reading::Wrong { line } => refuse(alloc, line),
        Reading::Right { capacity, steps } => judge(alloc, capacity, &steps),
    }
}

fn judge<A: Allocator + Copy>(
    alloc: A,
    capacity: Option<usize>,
    pairs: &[Pair<'_>],
) -> Result<ScriptOutput<A>, NoMemory>
    ensures judges { IfOk result (λ output. (input : List ℕ)
        → IsScript IsPairLine (lines input) capacity pairs.now
        → Judges A input output.text.items output.status) }
{
    let mut chan = Chan::new(alloc, capacity);
    for place in 0..pairs.len() {
        let pair = &pairs[place];
        if let Some(expected) = expected_text(alloc, &mut chan, pair.step, pair.reply)? {
            let text = write_break(alloc, place + 2, pair.reply, &expected)?;
            return Ok(ScriptOutput { text, status: 1 });
        }
    }
    let mut text = Vec::new(alloc);
    text.extend_from_slice(b"correct\n")?;
    Ok(ScriptOutput { text, status: 0 })
}

// Replies aren't parsed: one that no channel ever gives is a wrong reply, and no wrong line.
fn expected_text<A: Allocator + Copy>(
    alloc: A,
    chan: &mut Chan<u64, (), A>,
    step: Step<u64>,
    text: &[u8],
) -> Result<Option<Vec<u8, A>>, NoMemory>
    ensures lawful { IfOk result (λ r. IfNone r ((opening : Opening) (log : Log ℕ A)
        → Represents opening log chan.old
        → (reply : Reply ℕ A) × IsTextOf text.now reply
        × Represents opening ((step, reply) ∷ log) chan.new)) }
    ensures not_lawful { IfOk result (λ r. IfSome r (λ expected. (opening : Opening) (log : Log ℕ A)
        → Represents opening log chan.old
        → Shows A (channel opening log) step expected.items
        × ¬ IsLawfulText A (channel opening log) step text.now)) }
{
    let may_refuse = chan.no_memory_is_lawful(&step);
    let refusal = text_of(alloc, &Reply::NoMemory(handed_in(&step)))?;
    if may_refuse && refusal.as_slice() == text {
        return Ok(None);
    }
    let reply = chan.step(step);
    if let Reply::NoMemory(_) = reply {
        return Err(NoMemory);
    }
    let mut own = text_of(alloc, &reply)?;
    if own.as_slice() == text {
        return Ok(None);
    }
    if !may_refuse {
        return Ok(Some(own));
    }
    own.extend_from_slice(b" or ")?;
    own.extend_from_slice(&refusal)?;
    Ok(Some(own))
}

fn text_of<A: Allocator + Copy>(alloc: A, reply: &Reply<u64, A>) -> Result<Vec<u8, A>, NoMemory>
    ensures value { IfOk result (λ text. text.items ≡ reply_text reply.now) }
{
    let mut line = String::new(alloc);
    write_reply(&mut line, reply)?;
    let mut text = line.into_bytes();
    text.pop();
    Ok(text)
}

fn write_break<A: Allocator + Copy>(
    alloc: A,
    line: usize,
    reply: &[u8],
    expected: &[u8],
) -> Result<Vec<u8, A>, NoMemory>
    ensures value { IfOk result (λ text. text.items ≡ break_text line reply.now expected.now) }
{
    let mut place = String::new(alloc);
    write!(place, "line {line}: ")?;
    let mut text = place.into_bytes();
    text.extend_from_slice(reply)?;
    text.extend_from_slice(b", but ")?;
    text.extend_from_slice(expected)?;
    text.extend_from_slice(b"\n")?;
    Ok(text)
}
