//! Whether a correct channel could have given the answers of a recording.
ghost use Rattle.std.specs.Prelude.{IfOk, ◌≡◌, ◌==◌, ◌+◌, ◌<◌, ◌^◌, ◌⊎◌, ℕ, List, ◌∷◌, Option};
ghost use Rattle.std.specs.Prelude.{length, take};
ghost use Rattle.std.specs.List.{All};
ghost use Rattle.std.specs.Str.Lines.{lines};
ghost use Rattle.judge_calls.specs.Explanations.{thread_of};
ghost use Rattle.judge_calls.specs.Recordings.{IsFirstWrongEvent, IsRecordingText, names_of};
ghost use Rattle.judge_calls.specs.declared.event.Event.{Event};
ghost use Rattle.judge_search.specs.Search.{BreaksAfter};
ghost use Rattle.flume_model.specs.Log.{opens};
ghost use Rattle.judge_verdicts.specs.CallsText.{AreExplained, IsPossible, JudgesCalls};
ghost use Rattle.judge_verdicts.specs.CallsText.{PrintsWrongEvent};
ghost use Rattle.judge_verdicts.specs.CallsText.{PrintsUndecided, PrintsFault, PrintsSteps};
ghost use Rattle.judge_verdicts.specs.CallsText.{PrintsOutOfTurn};
ghost use Rattle.judge_verdicts.specs.Turns.{IsOutOfTurn, IsRecordingOf};

use crate::items::write_items;
use crate::possible::answers_there;
use crate::texts::{write_break, write_fault, write_line};
use crate::turns::out_of_turn;
use flume_core::error::NoMemory;
use flume_script::ScriptOutput;
use flume_script::reading::next_line;
use judge_calls::call::Answer;
use judge_calls::event::Event;
use judge_calls::fault::Fault;
use judge_calls::recording::{Recording, read_recording};
use judge_search::explain::{Checked, Explanation, check_calls, explain};
use std::alloc::Allocator;

/// What is printed of a recording, and the status (`JudgesCalls`), if no allocation fails.
pub(crate) fn judge_recording<A: Allocator + Copy>(
    alloc: A,
    with_steps: bool,
    limit: usize,
    input: &[u8],
) -> Result<ScriptOutput<A>, NoMemory>
    ensures judges { IfOk result (λ output.
        JudgesCalls A with_steps input.now output.text.items output.status) }
{
    match read_recording(alloc, input)? {
        Recording::Wrong { line, fault } => refuse(alloc, line, fault),
        Recording::Right {
            capacity,
            events,
            names,
        } => judge_in_turn(
            alloc,
            with_steps,
            limit,
            first_line(input),
            capacity,
            events,
            &names,
        ),
    }
}

fn first_line(input: &[u8]) -> &[u8]
    ensures value { (first : List ℕ) (rest : List (List ℕ)) → lines input.now ≡ first ∷ rest
        → result.now ≡ first }
{
    match next_line(input) {
        Some((first, _)) => first,
        None => &[],
    }
}

fn refuse<A: Allocator + Copy>(
    alloc: A,
    line: usize,
    fault: Fault,
) -> Result<ScriptOutput<A>, NoMemory>
    ensures refuses { IfOk result (λ output. (input : List ℕ)
        → IsFirstWrongEvent A (lines input) line fault
        → PrintsFault A input output.text.items output.status) }
{
    let text = write_fault(alloc, line, fault)?;
    Ok(ScriptOutput { text, status: 2 })
}

fn refuse_turn<A: Allocator + Copy>(alloc: A, place: usize) -> Result<ScriptOutput<A>, NoMemory>
    requires room { place + 2 < 2 ^ 64 }
    ensures refuses { IfOk result (λ output. (input : List ℕ) (capacity : Option ℕ)
        (events : List (Event ℕ A)) (names : List (List ℕ))
        → IsRecordingText (lines input) capacity events names → IsOutOfTurn events place
        → PrintsOutOfTurn A input output.text.items output.status) }
{
    let text = write_line(alloc, place + 2, "out of turn")?;
    Ok(ScriptOutput { text, status: 2 })
}

fn judge_in_turn<A: Allocator + Copy>(
    alloc: A,
    with_steps: bool,
    limit: usize,
    first: &[u8],
    capacity: Option<usize>,
    events: Vec<Event<u64, A>, A>,
    names: &[&[u8]],
) -> Result<ScriptOutput<A>, NoMemory>
    ensures judges { IfOk result (λ output. (input : List ℕ) (rest : List (List ℕ))
        → lines input ≡ first.now ∷ rest
        → IsRecordingText (lines input) capacity events.items (names_of names.now)
        → JudgesCalls A with_steps input output.text.items output.status) }
{
    match out_of_turn(alloc, &events)? {
        Some(place) => refuse_turn(alloc, place),
        None => judge(alloc, with_steps, limit, first, capacity, events, names),
    }
}

fn judge<A: Allocator + Copy>(
    alloc: A,
    with_steps: bool,
    limit: usize,
    first: &[u8],
    capacity: Option<usize>,
    events: Vec<Event<u64, A>, A>,
    names: &[&[u8]],
) -> Result<ScriptOutput<A>, NoMemory>
    ensures judges { IfOk result (λ output. (input : List ℕ) (rest : List (List ℕ))
        → lines input ≡ first.now ∷ rest
        → IsRecordingOf (lines input) capacity events.items (names_of names.now)
        → JudgesCalls A with_steps input output.text.items output.status) }
{
    match check_calls(alloc, capacity, &events, limit) {
        Checked::Explained if with_steps => show(alloc, limit, first, capacity, &events, names),
        Checked::Explained => {
            let mut text = Vec::new(alloc);
            text.extend_from_slice(b"correct\n")?;
            Ok(ScriptOutput { text, status: 0 })
        }
        Checked::Breaks(place) => break_off(alloc, capacity, events, place),
        Checked::Unexplained(place) => {
            let text = write_line(alloc, place + 2, "wrong, here or later")?;
            Ok(ScriptOutput { text, status: 1 })
        }
        Checked::NoMemory => Err(NoMemory),
        Checked::GaveUp(place) => give_up(alloc, place),
    }
}

fn show<A: Allocator + Copy>(
    alloc: A,
    limit: usize,
    first: &[u8],
    capacity: Option<usize>,
    events: &[Event<u64, A>],
    names: &[&[u8]],
) -> Result<ScriptOutput<A>, NoMemory>
    requires explained { AreExplained capacity events.now }
    requires room { length events.now + 2 < 2 ^ 64 }
    ensures with_steps { IfOk result (λ output. (input : List ℕ) (rest : List (List ℕ))
        → lines input ≡ first.now ∷ rest
        → IsRecordingOf (lines input) capacity events.now (names_of names.now)
        → PrintsSteps A input output.text.items output.status
        ⊎ PrintsUndecided A input output.text.items output.status) }
{
    match explain(alloc, capacity, events, limit) {
        Explanation::Explained(items) => {
            let text = write_items(alloc, first, names, &items)?;
            Ok(ScriptOutput { text, status: 0 })
        }
        Explanation::Unexplained => unreachable!(),
        Explanation::NoMemory => Err(NoMemory),
        Explanation::GaveUp(place) => give_up(alloc, place),
    }
}

fn give_up<A: Allocator + Copy>(alloc: A, place: usize) -> Result<ScriptOutput<A>, NoMemory>
    requires room { place + 2 < 2 ^ 64 }
    ensures gives_up { IfOk result (λ output. (input : List ℕ) (capacity : Option ℕ)
        (events : List (Event ℕ A)) (names : List (List ℕ))
        → IsRecordingOf (lines input) capacity events names
        → AreExplained capacity (take place events)
        → PrintsUndecided A input output.text.items output.status) }
{
    let text = write_line(alloc, place + 2, "not decided")?;
    Ok(ScriptOutput { text, status: 6 })
}

fn break_off<A: Allocator + Copy>(
    alloc: A,
    capacity: Option<usize>,
    mut events: Vec<Event<u64, A>, A>,
    place: usize,
) -> Result<ScriptOutput<A>, NoMemory>
    requires breaks { BreaksAfter (λ x y. x == y) (opens capacity 1) events.items place }
    ensures breaks { IfOk result (λ output. (input : List ℕ) (names : List (List ℕ))
        → IsRecordingOf (lines input) capacity events.items names
        → PrintsWrongEvent A input output.text.items output.status) }
{
    let event = events.remove(place);
    events.truncate(place);
    let answers = answers_for(alloc, capacity, events, &event)?;
    let text = write_break(alloc, place + 2, &event, &answers)?;
    Ok(ScriptOutput { text, status: 1 })
}

fn answers_for<A: Allocator + Copy>(
    alloc: A,
    capacity: Option<usize>,
    events: Vec<Event<u64, A>, A>,
    event: &Event<u64, A>,
) -> Result<Vec<Answer<u64, A>, A>, NoMemory>
    ensures possible { IfOk result (λ answers.
        All (IsPossible capacity events.items (thread_of event.now)) answers.items) }
{
    match event {
        Event::Begins { .. } => Ok(Vec::new(alloc)),
        Event::Returns { thread, .. } => answers_there(alloc, capacity, events, *thread),
    }
}
