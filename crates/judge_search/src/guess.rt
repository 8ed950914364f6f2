//! A fast search that leaves out what likely leads to no explanation. None found says nothing.
use crate::call_records::CallRecords;
use crate::choice::Choice;
use crate::configuration::{Configuration, OpenCall, Progress};
use crate::frame::{Frame, Next};
use crate::happens::Forced;
use crate::table::ConfigurationTable;
use crate::tries::ChoiceOutcome;
use judge_calls::event::Event;
use std::alloc::Allocator;
use std::collections::VecDeque;

// Each frame has a copy of the channel. A choice whose frame is forgotten stays made.
const MOST_FRAMES: usize = 200;

#[derive(Drop)]
struct Guess<A: Allocator> {
    frames: VecDeque<Frame<A>, A>,
    chosen: Vec<Choice, A>,
    dead: ConfigurationTable<A>,
    records: CallRecords<A>,
}

/// Choices that lead past all the events, if they are found within this many configurations.
pub fn guess_path<T: Copy + Eq + Drop, A: Allocator + Copy>(
    alloc: A,
    start: Configuration<A>,
    events: &[Event<T, A>],
    limit: usize,
) -> Option<Vec<Choice, A>> {
    let mut guess = Guess {
        frames: VecDeque::new(alloc),
        chosen: Vec::new(alloc),
        dead: ConfigurationTable::new(alloc),
        records: CallRecords::new(alloc, events)?,
    };
    let (mut next, mut place) = (start, 0);
    for _ in 0..limit {
        if guess.enter(alloc, events, next, place)? {
            return Some(guess.chosen);
        }
        (next, place) = guess.next(alloc, events)?;
    }
    None
}

impl<A: Allocator + Copy> Guess<A> {
    // Whether events without an alternative lead past the last one. `None`: an allocation failed.
    fn enter<T: Copy + Eq + Drop>(
        &mut self,
        alloc: A,
        events: &[Event<T, A>],
        mut configuration: Configuration<A>,
        place: usize,
    ) -> Option<bool> {
        match configuration.take_forced(events, place, &mut self.chosen) {
            Forced::AtEnd => Some(true),
            Forced::Stops(at, own) => {
                if !self.is_unlikely(events, &configuration, at) {
                    self.push_frame(alloc, events, configuration, at, own)?;
                }
                Some(false)
            }
            Forced::Dead(_) => Some(false),
            Forced::NoMemory => None,
        }
    }

    fn is_unlikely<T: Copy + Eq + Drop>(
        &self,
        events: &[Event<T, A>],
        configuration: &Configuration<A>,
        place: usize,
    ) -> bool {
        self.dead.has(configuration, place)
            || self.records.are_against(events, configuration, place)
    }

    fn push_frame<T: Copy + Eq + Drop>(
        &mut self,
        alloc: A,
        events: &[Event<T, A>],
        configuration: Configuration<A>,
        place: usize,
        own: OpenCall,
    ) -> Option<()> {
        let mut choices = configuration.choices(alloc, own)?;
        if !self
            .records
            .push_first(events, &configuration, own, &mut choices)
        {
            return None;
        }
        let depth = self.chosen.len();
        let frame = Frame {
            configuration,
            place,
            choices,
            depth,
        };
        if self.frames.len() == MOST_FRAMES {
            let _ = self.frames.pop_front();
        }
        self.frames.push_back(frame).ok()
    }

    // `None`: no choice leads on, or an allocation failed.
    fn next<T: Copy + Eq + Drop>(
        &mut self,
        alloc: A,
        events: &[Event<T, A>],
    ) -> Option<(Configuration<A>, usize)> {
        while let Some(mut frame) = self.frames.pop_back() {
            match self.try_frame(alloc, events, &mut frame) {
                Next::Leads(choice, new, at) => {
                    self.chosen.truncate(frame.depth);
                    self.chosen.push(choice).ok()?;
                    self.frames.push_back(frame).ok()?;
                    return Some((new, at));
                }
                Next::Nowhere => {
                    if !self.dead.remember(frame.configuration, frame.place) {
                        return None;
                    }
                }
                Next::NoMemory => return None,
            }
        }
        None
    }

    fn try_frame<T: Copy + Eq + Drop>(
        &self,
        alloc: A,
        events: &[Event<T, A>],
        frame: &mut Frame<A>,
    ) -> Next<A> {
        while let Some(choice) = frame.choices.pop() {
            if frame.place < events.len() && self.is_likely(events, choice) {
                match frame
                    .configuration
                    .try_choice(alloc, events, frame.place, choice)
                {
                    ChoiceOutcome::Leads(new, at) => {
                        if !self.is_against(events, choice, &frame.configuration, &new) {
                            return Next::Leads(choice, new, at);
                        }
                    }
                    ChoiceOutcome::Spent => {}
                    ChoiceOutcome::NoMemory => return Next::NoMemory,
                }
            }
        }
        Next::Nowhere
    }

    // A call that doesn't return `NoMemory` was likely refused none.
    fn is_likely<T: Copy + Eq + Drop>(&self, events: &[Event<T, A>], choice: Choice) -> bool {
        match choice {
            Choice::TakeEvent => true,
            Choice::MakeStep { call, refused, .. } => {
                call.progress != Progress::Done
                    && (!refused || self.records.is_refused(events, call.place))
            }
        }
    }

    fn is_against<T: Copy + Eq + Drop>(
        &self,
        events: &[Event<T, A>],
        choice: Choice,
        before: &Configuration<A>,
        after: &Configuration<A>,
    ) -> bool {
        match choice {
            Choice::TakeEvent => false,
            Choice::MakeStep { call, .. } => {
                self.records
                    .is_taken_away(events, call.place, (before, after))
            }
        }
    }
}
