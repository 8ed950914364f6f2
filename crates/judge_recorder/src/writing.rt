//! Recordings, written as text.
ghost use Rattle.std.specs.Prelude.{◌≡◌, ◌++◌, IfOk, OnOk};
ghost use Rattle.judge_calls.specs.Explanations as spec;
ghost use Rattle.judge_recorder.specs.Texts.{line_text, opening_text, recording_text};

use flume_error::error::NoMemory;
use judge_calls::event::Event;
use judge_calls::writing::write_event;
use std::alloc::Allocator;

fn thread_of<A: Allocator>(event: &Event<u64, A>) -> usize
    ensures value { result ≡ spec.thread_of event.now }
{
    match event {
        Event::Begins { thread, call: _ } => *thread,
        Event::Returns { thread, answer: _ } => *thread,
    }
}

fn write_opening<A: Allocator + Copy>(
    alloc: A,
    text: &mut Vec<u8, A>,
    capacity: Option<usize>,
) -> Result<(), NoMemory>
    ensures added { OnOk result (text.new.items ≡ text.old.items ++ opening_text capacity) }
{
    match capacity {
        None => text.extend_from_slice(b"unbounded\n")?,
        Some(capacity) => {
            let line = format!(in alloc; "bounded {capacity}\n")?;
            text.extend_from_slice(line.as_bytes())?;
        }
    }
    Ok(())
}

fn write_line<A: Allocator + Copy>(
    alloc: A,
    text: &mut Vec<u8, A>,
    event: &Event<u64, A>,
) -> Result<(), NoMemory>
    ensures added { OnOk result (text.new.items ≡ text.old.items ++ line_text event.now) }
{
    let thread = thread_of(event);
    let name = format!(in alloc; "{thread}")?;
    text.extend_from_slice(name.as_bytes())?;
    let rest = write_event(alloc, &[], event)?;
    text.extend_from_slice(rest.as_slice())?;
    text.extend_from_slice(b"\n")?;
    Ok(())
}

/// The text of a recording of a channel of this capacity (`None`: unbounded), with numbers as names
/// of the threads. `NoMemory`: the text couldn't be allocated.
/// ```
/// recorder.try_send(&tx, 7)?;
/// let events = recording.events(vec![in rt.alloc(); recorder]?)?;
/// let text = write_recording(rt.alloc(), Some(1), events.as_slice())?;
/// assert_eq!(rt; str::from_utf8(&text)?, "bounded 1\n0: try_send 7\n0 -> sent\n");
/// ```
pub fn write_recording<A: Allocator + Copy>(
    alloc: A,
    capacity: Option<usize>,
    events: &[Event<u64, A>],
) -> Result<Vec<u8, A>, NoMemory>
    ensures value { IfOk result (λ text. text.items ≡ recording_text capacity events.now) }
{
    let mut text = Vec::new(alloc);
    write_opening(alloc, &mut text, capacity)?;
    for event in events {
        write_line(alloc, &mut text, event)?;
    }
    Ok(text)
}
