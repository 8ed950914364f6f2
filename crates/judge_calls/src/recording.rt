//! Reads recordings to events.
ghost use Rattle.std.specs.Prelude.{IfErr, IfOk, ◌≡◌, ◌<◌, length};
ghost use Rattle.std.specs.Str.Lines.{lines};
ghost use Rattle.judge_calls.specs.declared.fault.Fault.TheVariants.{NoOpening};
ghost use Rattle.judge_calls.specs.declared.recording.Recording.TheVariants.{Wrong};
ghost use Rattle.judge_calls.specs.Recordings.{AreEventLines, EventsUpTo, names_of};
ghost use Rattle.judge_calls.specs.Recordings.{IsRecordingReading};

use crate::event::Event;
use crate::fault::Fault;
use crate::threads::Threads;
use flume_error::error::NoMemory;
use flume_script::reading::{next_line, opening_of};
use std::alloc::{AllocError, Allocator};

/// A recording, with `None` as its capacity if it is unbounded and the names by the numbers of the
/// threads, or its first wrong line, counted from 1.
#[derive(Drop)]
pub enum Recording<'s, A: Allocator> {
    Right {
        capacity: Option<usize>,
        events: Vec<Event<u64, A>, A>,
        names: Vec<&'s [u8], A>,
    },
    Wrong {
        line: usize,
        fault: Fault,
    },
}

type Events<'s, A> = (Vec<Event<u64, A>, A>, Vec<&'s [u8], A>);

fn read_events<A: Allocator + Copy>(
    alloc: A,
    mut rest: &[u8],
) -> Result<Result<Events<'_, A>, (usize, Fault)>, NoMemory>
    ensures right { IfOk result (λ r. IfOk r (λ read.
        AreEventLines (lines rest.now) read.0.items (names_of read.1.items))) }
    ensures wrong { IfOk result (λ r. IfErr r (λ wrong.
        EventsUpTo A (lines rest.now) wrong.0 wrong.1 × (wrong.0 < length rest.now))) }
{
    let mut events = Vec::new(alloc);
    let mut threads = Threads::new(alloc);
    while let Some((line, later)) = next_line(rest) {
        match threads.read(alloc, line)? {
            Ok(event) => events.push(event).map_err(AllocError::from)?,
            Err(fault) => return Ok(Err((events.len(), fault))),
        }
        rest = later;
    }
    let Threads { names, asking: _ } = threads;
    Ok(Ok((events, names)))
}

fn unopened<'s, A: Allocator>() -> Recording<'s, A>
    ensures value { result ≡ Wrong 1 NoOpening }
{
    Recording::Wrong {
        line: 1,
        fault: Fault::NoOpening,
    }
}

/// Reads a recording up to its first wrong line. `NoMemory`: an allocation failed.
/// ```
/// let right = read_recording(alloc, b"unbounded\na: len\na -> 0\n")?;
/// matches!(right, Recording::Right { capacity: None, .. });               // true
/// let wrong = read_recording(alloc, b"unbounded\na: length\n")?;
/// matches!(wrong, Recording::Wrong { line: 2, fault: Fault::NoCall });    // true
/// ```
pub fn read_recording<A: Allocator + Copy>(
    alloc: A,
    input: &[u8],
) -> Result<Recording<'_, A>, NoMemory>
    ensures value { IfOk result (λ recording. IsRecordingReading input.now recording) }
{
    let Some((first, rest)) = next_line(input) else {
        return Ok(unopened());
    };
    let Some(capacity) = opening_of(first) else {
        return Ok(unopened());
    };
    match read_events(alloc, rest)? {
        Ok((events, names)) => Ok(Recording::Right {
            capacity,
            events,
            names,
        }),
        Err((place, fault)) => Ok(Recording::Wrong {
            line: place + 2,
            fault,
        }),
    }
}
