//! Events, written as text.
ghost use Rattle.std.specs.Prelude.{IfOk, ◌≡◌};
ghost use Rattle.judge_calls.specs.EventLines.{event_text};
ghost use Rattle.judge_calls.specs.Recordings.{names_of};

use crate::answer_texts::write_answer;
use crate::call_texts::write_call;
use crate::event::Event;
use flume_error::error::NoMemory;
use std::alloc::Allocator;

/// The text of an event, without a line feed; a missing name is empty. `NoMemory`: none for it.
/// ```
/// let event = Event::Begins { thread: 0, call: Call::Send(7) };
/// write_event(alloc, &[b"a"], &event)?;    // "a: send 7"
/// ```
pub fn write_event<A: Allocator + Copy>(
    alloc: A,
    names: &[&[u8]],
    event: &Event<u64, A>,
) -> Result<Vec<u8, A>, NoMemory>
    ensures value { IfOk result (λ text. text.items ≡ event_text (names_of names.now) event.now) }
{
    let mut rest = String::new(alloc);
    let thread = match event {
        Event::Begins { thread, call } => {
            rest.push_str(": ")?;
            write_call(&mut rest, call)?;
            *thread
        }
        Event::Returns { thread, answer } => {
            rest.push_str(" -> ")?;
            write_answer(&mut rest, answer)?;
            *thread
        }
    };
    let name = names.get(thread).copied().unwrap_or(&[]);
    let mut text = Vec::new(alloc);
    text.extend_from_slice(name)?;
    text.extend_from_slice(rest.as_bytes())?;
    Ok(text)
}
