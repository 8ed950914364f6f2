//! Reads the lines of a history.
ghost use Rattle.flume_history.specs.HistoryText.{IsPairLine};
ghost use Rattle.std.specs.List.{All};
ghost use Rattle.std.specs.Prelude.{IfNone, IfSome, ◌≡◌, ◌==◌, ℕ, List, ◌++◌, false, codes};
ghost use Rattle.flume_model.specs.declared.step.Step.{Step};

use flume_model::step::Step;
use flume_script::reading::{Line, part_at, step_of};
use std::marker::Model;

#[derive(Drop)]
pub(crate) struct Pair<'s> {
    pub(crate) step: Step<u64>,
    pub(crate) reply: &'s [u8],
}

impl<'s> Model for Pair<'s> {
    ghost Value = { Step ℕ × List ℕ };

    ghost view = { λ pair. (pair.step, pair.reply.now) };
}

impl<'s> Line<'s> for Pair<'s> {
    ghost is_line = { IsPairLine };

    fn read(line: &'s [u8]) -> Option<Self> {
        let (text, reply) = parts_of(line)?;
        let step = step_of(text)?;
        Some(Pair { step, reply })
    }
}

// What is before the first ` -> `, and after it; `None` if another `-` is before it.
fn parts_of(line: &[u8]) -> Option<(&[u8], &[u8])>
    ensures parts { IfSome result (λ r. line.now ≡ r.0.now ++ codes " -> " ++ r.1.now) }
    ensures first { IfSome result (λ r. All (λ x. (x == 45) ≡ false) r.0.now) }
    ensures none { IfNone result ((text reply : List ℕ) → All (λ x. (x == 45) ≡ false) text
        → ¬ (line.now ≡ text ++ codes " -> " ++ reply)) }
{
    let (before, after) = part_at(line, b'-')?;
    let text = before.strip_suffix(b" ")?;
    let reply = after.strip_prefix(b"> ")?;
    Some((text, reply))
}
