//! A line in its parts: a thread's name, and the text of a call or of an answer.
ghost use Rattle.std.specs.Prelude.{MatchOption};
ghost use Rattle.judge_calls.specs.EventLines.{ArePartsOf, HasNoParts};

use flume_script::reading::part_at;

#[derive(Clone, Copy, Drop)]
pub(crate) enum Parts<'s> {
    Begins { name: &'s [u8], call: &'s [u8] },
    Returns { name: &'s [u8], answer: &'s [u8] },
}

pub(crate) fn parts_of(line: &[u8]) -> Option<Parts<'_>>
    ensures value { MatchOption result (HasNoParts line.now) (ArePartsOf line.now) }
{
    let (front, rest) = part_at(line, b' ')?;
    if let Some((name, after)) = part_at(front, b':') {
        if name.is_empty() || !after.is_empty() {
            return None;
        }
        return Some(Parts::Begins { name, call: rest });
    }
    let answer = rest.strip_prefix(b"-> ")?;
    if front.is_empty() {
        return None;
    }
    Some(Parts::Returns {
        name: front,
        answer,
    })
}
