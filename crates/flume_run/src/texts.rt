//! The replies of a script with the states between them, as text.

use crate::states::{State, state_after};
use flume_core::chan::Chan;
use flume_core::error::NoMemory;
use flume_model::entry::{Entry, Mark};
use flume_model::step::{Kind, Step};
use flume_script::reading::{Reading, read_script};
use flume_script::writing::write_reply;
use flume_script::{ScriptOutput, refuse};
use std::alloc::Allocator;

// What `run_script` prints, with the state of the channel in a line before the replies and in one
// after each. The time grows with the square of the number of steps.
pub(crate) fn run_with_states<A: Allocator + Copy>(
    alloc: A,
    input: &[u8],
) -> Result<ScriptOutput<A>, NoMemory> {
    match read_script(alloc, input)? {
        Reading::Wrong { line } => refuse(alloc, line),
        Reading::Right { capacity, steps } => {
            let text = write_run(alloc, capacity, &steps)?;
            Ok(ScriptOutput { text, status: 0 })
        }
    }
}

fn write_run<A: Allocator + Copy>(
    alloc: A,
    capacity: Option<usize>,
    steps: &[Step<u64>],
) -> Result<Vec<u8, A>, NoMemory> {
    let mut text = String::new(alloc);
    let mut chan = Chan::new(alloc, capacity);
    write_state(&mut text, &state_after(alloc, capacity, &[])?)?;
    for place in 0..steps.len() {
        write_reply(&mut text, &chan.step(steps[place]))?;
        let done = &steps[..place + 1];
        write_state(&mut text, &state_after(alloc, capacity, done)?)?;
    }
    Ok(text.into_bytes())
}

fn write_state<A: Allocator>(text: &mut String<A>, state: &State<A>) -> Result<(), NoMemory> {
    text.push_str("  queue")?;
    for message in &state.queue {
        write!(text, " {message}")?;
    }
    text.push_str(" | blocked")?;
    for (message, ticket) in &state.blocked {
        write!(text, " {message}#{ticket}")?;
    }
    text.push_str(" | parked")?;
    let mut before = "";
    for receiver in &state.parked {
        text.push_str(before)?;
        write_receiver(text, receiver)?;
        before = ",";
    }
    match state.capacity {
        None => text.push_str(" | unbounded")?,
        Some(capacity) => write!(text, " | capacity {capacity}")?,
    }
    let (senders, receivers) = (state.senders, state.receivers);
    writeln!(text, " | senders {senders} | receivers {receivers}")?;
    Ok(())
}

fn write_receiver<A: Allocator>(
    text: &mut String<A>,
    receiver: &Entry<u64, ()>,
) -> Result<(), NoMemory> {
    let ticket = receiver.ticket;
    let kind = match receiver.kind {
        Kind::Block => "block",
        Kind::Plain => "plain",
        Kind::Stream => "stream",
        Kind::Arm => "arm",
    };
    match &receiver.mark {
        Mark::Waiting => write!(text, " #{ticket} {kind} waiting")?,
        Mark::Woken => write!(text, " #{ticket} {kind} woken")?,
        Mark::Filled(message) => write!(text, " #{ticket} {kind} filled {message}")?,
    }
    Ok(())
}
