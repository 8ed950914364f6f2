//! Makes the choices of a search on a channel.
ghost use Rattle.std.specs.Prelude.{◌≡◌, OnOk, IfOk, []};
ghost use Rattle.judge_calls.specs.Explanations.{events_in};

use crate::choice::Choice;
use flume_core::chan::Chan;
use flume_model::step::{Reply, Step};
use judge_calls::call::{Answer, Call, Messages};
use judge_calls::event::{Event, Item};
use judge_calls::stage::{Stage, stage_after};
use std::alloc::{AllocError, AllocFailed, Allocator};
use std::collections::BTreeMap;

/// Why choices weren't made.
#[derive(Clone, Copy, Debug, PartialEq, Eq, Drop)]
pub enum Failure {
    NoMemory,
    /// A choice can't be made, or they end before the last event.
    NoPath,
}

impl From<AllocError> for Failure {
    fn from(_: AllocError) -> Self {
        Failure::NoMemory
    }
}

impl<T: Drop> From<AllocFailed<T>> for Failure {
    fn from(_: AllocFailed<T>) -> Self {
        Failure::NoMemory
    }
}

/// A channel on which choices are made.
#[derive(Drop)]
pub struct Replay<T, A: Allocator> {
    /// That of the next event.
    pub place: usize,
    pub items: Vec<Item<T, A>, A>,
    chan: Chan<T, (), A>,
    stages: BTreeMap<usize, Stage<T, A>, A>,
}

/// The items of these choices, with the replies of a channel of this capacity (`None`: unbounded).
pub fn make_choices<T: Copy + Eq + Drop, A: Allocator + Copy>(
    alloc: A,
    capacity: Option<usize>,
    events: &[Event<T, A>],
    path: &[Choice],
) -> Result<Vec<Item<T, A>, A>, Failure>
    ensures events { IfOk result (λ items. events_in items.items ≡ events.now) }
{
    let mut replay = Replay::new(alloc, capacity);
    for choice in path {
        replay.make(alloc, events, *choice)?;
    }
    if replay.place == events.len() {
        Ok(replay.items)
    } else {
        Err(Failure::NoPath)
    }
}

impl<T: Copy + Eq + Drop, A: Allocator + Copy> Replay<T, A> {
    ghost use Rattle.judge_search.specs.Search.{HasTaken};

    fn new(alloc: A, capacity: Option<usize>) -> Self
        ensures place { result.place ≡ 0 }
        ensures items { result.items.items ≡ [] }
    {
        Replay {
            place: 0,
            items: Vec::new(alloc),
            chan: Chan::new(alloc, capacity),
            stages: BTreeMap::new(alloc),
        }
    }

    fn make(&mut self, alloc: A, events: &[Event<T, A>], choice: Choice) -> Result<(), Failure>
        ensures taken { OnOk result (HasTaken events.now self.old → HasTaken events.now self.new) }
    {
        match choice {
            Choice::TakeEvent => self.take_event(alloc, events),
            Choice::MakeStep {
                call,
                other,
                refused,
            } => self.make_step(events, call.place, other, refused),
        }
    }

    fn take_event(&mut self, alloc: A, events: &[Event<T, A>]) -> Result<(), Failure>
        ensures taken { OnOk result (HasTaken events.now self.old → HasTaken events.now self.new) }
    {
        if self.place >= events.len() {
            return Err(Failure::NoPath);
        }
        let event = copy_of_event(alloc, &events[self.place])?;
        self.items.push(Item::Happens(event))?;
        self.place += 1;
        Ok(())
    }

    fn make_step(
        &mut self,
        events: &[Event<T, A>],
        place: usize,
        other: bool,
        refused: bool,
    ) -> Result<(), Failure>
        ensures taken { OnOk result (HasTaken events.now self.old → HasTaken events.now self.new) }
    {
        let Some(Event::Begins { thread, call }) = events.get(place) else {
            return Err(Failure::NoPath);
        };
        let stage = self.stages.remove(&place).unwrap_or(Stage::Begun);
        let Some(step) = step_of(call, &stage, other) else {
            return Err(Failure::NoPath);
        };
        let reply = reply_to(&mut self.chan, step, refused)?;
        store_stage(
            &mut self.stages,
            place,
            stage_after(call, stage, reply.clone()?),
        )?;
        self.items.push(Item::Makes {
            thread: *thread,
            step,
            reply,
        })?;
        Ok(())
    }
}

fn reply_to<T: Copy + Eq + Drop, A: Allocator + Copy>(
    chan: &mut Chan<T, (), A>,
    step: Step<T>,
    refused: bool,
) -> Result<Reply<T, A>, Failure> {
    if refused {
        return Ok(Reply::NoMemory(message_of(&step)));
    }
    match chan.step(step) {
        Reply::NoMemory(_) => Err(Failure::NoMemory),
        reply => Ok(reply),
    }
}

fn store_stage<T: Copy + Eq + Drop, A: Allocator + Copy>(
    stages: &mut BTreeMap<usize, Stage<T, A>, A>,
    place: usize,
    stage: Stage<T, A>,
) -> Result<(), Failure> {
    if !matches!(stage, Stage::Answered(_)) {
        stages.insert(place, stage)?;
    }
    Ok(())
}

fn step_of<T: Copy, A: Allocator>(
    call: &Call<T>,
    stage: &Stage<T, A>,
    other: bool,
) -> Option<Step<T>> {
    if other {
        call.alternative_step(stage)
    } else {
        call.next_step(stage)
    }
}

fn message_of<T: Copy>(step: &Step<T>) -> Option<T> {
    match *step {
        Step::TrySend(message) | Step::Send(message) => Some(message),
        _ => None,
    }
}

fn copy_of_event<T: Copy + Drop, A: Allocator + Copy>(
    alloc: A,
    event: &Event<T, A>,
) -> Result<Event<T, A>, AllocError>
    ensures same { IfOk result (λ copy. copy ≡ event.now) }
{
    match event {
        Event::Begins { thread, call } => Ok(Event::Begins {
            thread: *thread,
            call: *call,
        }),
        Event::Returns { thread, answer } => Ok(Event::Returns {
            thread: *thread,
            answer: copy_of_answer(alloc, answer)?,
        }),
    }
}

fn copy_of_answer<T: Copy + Drop, A: Allocator + Copy>(
    alloc: A,
    answer: &Answer<T, A>,
) -> Result<Answer<T, A>, AllocError>
    ensures same { IfOk result (λ copy. copy ≡ answer.now) }
{
    Ok(match answer {
        Answer::Sent => Answer::Sent,
        Answer::Full => Answer::Full,
        Answer::Got(message) => Answer::Got(*message),
        Answer::Empty => Answer::Empty,
        Answer::Disconnected => Answer::Disconnected,
        Answer::Timeout => Answer::Timeout,
        Answer::NoMemory => Answer::NoMemory,
        Answer::Dropped => Answer::Dropped,
        Answer::Drained(messages) => {
            Answer::Drained(Messages::new(Vec::from_slice(alloc, messages.as_slice())?))
        }
        Answer::Done => Answer::Done,
        Answer::NoEnd => Answer::NoEnd,
        Answer::CountFull => Answer::CountFull,
        Answer::Number(number) => Answer::Number(*number),
        Answer::Flag(flag) => Answer::Flag(*flag),
        Answer::Capacity(capacity) => Answer::Capacity(*capacity),
        Answer::Unbounded => Answer::Unbounded,
    })
}
