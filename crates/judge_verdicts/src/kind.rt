//! Tells a recording of calls from a history of steps.
ghost use Rattle.std.specs.Prelude.{IsTrue, ◌≡◌, ◌↔◌};
ghost use Rattle.std.specs.Str.Lines.{lines};
ghost use Rattle.judge_verdicts.specs.Kinds.{IsRecording, first_word as word_of};
ghost use Rattle.judge_verdicts.specs.Kinds.{has_colon as colon_in};

use flume_script::reading::{next_line, part_at};

// A call begins by a word with a colon, and no step has one.
pub(crate) fn is_recording(input: &[u8]) -> bool
    ensures value { IsTrue result ↔ IsRecording input.now }
{
    match next_line(input) {
        Some((_, rest)) => has_colon(rest),
        None => false,
    }
}

fn has_colon(mut rest: &[u8]) -> bool
    ensures value { result ≡ colon_in (lines rest.now) }
{
    while let Some((line, later)) = next_line(rest) {
        if first_word(line).contains(&b':') {
            return true;
        }
        rest = later;
    }
    false
}

fn first_word(line: &[u8]) -> &[u8]
    ensures value { result.now ≡ word_of line.now }
{
    match part_at(line, b' ') {
        Some((word, _)) => word,
        None => line,
    }
}
