//! The answers that a call may come to after events.
use crate::configuration::{Configuration, OpenCall, Progress};
use crate::levels::Level;
use crate::moves::Outcome;
use crate::trails::Trails;
use crate::tries::recorded;
use flume_core::error::NoMemory;
use judge_calls::call::Answer;
use judge_calls::event::Event;
use std::alloc::{AllocError, Allocator};

/// Answers to which the last call of this thread may come by the events, on a channel of this
/// capacity (`None`: unbounded). If more than `limit` configurations are entered by steps, some or all
/// are missing; those of refused memory always are.
pub fn answers_after<T: Copy + Eq + Drop, A: Allocator + Copy>(
    alloc: A,
    capacity: Option<usize>,
    events: &[Event<T, A>],
    thread: usize,
    limit: usize,
) -> Result<Vec<Answer<T, A>, A>, NoMemory> {
    let mut answers = Vec::new(alloc);
    let Some(begun) = last_begun(events, thread) else {
        return Ok(answers);
    };
    let mut trails = Trails::new(alloc, events).ok_or(NoMemory)?;
    let mut level = Level::first(alloc, Configuration::new(alloc, capacity))?;
    for _ in events {
        let next = level.next(alloc, events, &mut trails, limit)?;
        level.add_answers(alloc, events, begun, &mut answers)?;
        level = next;
    }
    level.add_last_steps(alloc, events, begun, limit)?;
    level.add_answers(alloc, events, begun, &mut answers)?;
    Ok(answers)
}

// The place at which this thread's last call began.
fn last_begun<T, A: Allocator>(events: &[Event<T, A>], thread: usize) -> Option<usize> {
    let mut last = None;
    for (place, event) in events.iter().enumerate() {
        if let Event::Begins { thread: own, .. } = event {
            if *own == thread {
                last = Some(place);
            }
        }
    }
    last
}

impl<A: Allocator + Copy> Level<A> {
    fn add_answers<T: Copy + Eq + Drop>(
        &self,
        alloc: A,
        events: &[Event<T, A>],
        begun: usize,
        answers: &mut Vec<Answer<T, A>, A>,
    ) -> Result<(), NoMemory> {
        for one in self.entered() {
            if let Some(own) = one.configuration.call_from(begun) {
                one.configuration.add_answers(alloc, events, own, answers)?;
            }
        }
        Ok(())
    }

    // Where the steps of open calls lead after all the events.
    fn add_last_steps<T: Copy + Eq + Drop>(
        &mut self,
        alloc: A,
        events: &[Event<T, A>],
        begun: usize,
        limit: usize,
    ) -> Result<(), NoMemory> {
        for index in 0..limit {
            let Some(configuration) = self.copy_at(alloc, index)? else {
                break;
            };
            self.add_steps(alloc, events, &configuration, begun)?;
        }
        Ok(())
    }

    // All steps but those by which the call that began there comes to its answer.
    fn add_steps<T: Copy + Eq + Drop>(
        &mut self,
        alloc: A,
        events: &[Event<T, A>],
        configuration: &Configuration<A>,
        begun: usize,
    ) -> Result<(), NoMemory> {
        for call in configuration.calls.as_slice() {
            for (other, refused) in [(false, false), (true, false), (false, true), (true, true)] {
                let recorded = recorded(events, events.len(), *call);
                match configuration.after(alloc, events, recorded, *call, other, refused) {
                    Outcome::Leads(new) => {
                        if !new.is_done(begun) && !self.has_or_adds(new, events.len()) {
                            return Err(NoMemory);
                        }
                    }
                    Outcome::NoMemory => return Err(NoMemory),
                    Outcome::Same | Outcome::Nowhere => {}
                }
            }
        }
        Ok(())
    }
}

impl<A: Allocator + Copy> Configuration<A> {
    // The open call that began at this place.
    fn call_from(&self, place: usize) -> Option<OpenCall> {
        for call in self.calls.as_slice() {
            if call.place == place {
                return Some(*call);
            }
        }
        None
    }

    fn is_done(&self, place: usize) -> bool {
        match self.call_from(place) {
            Some(call) => call.progress == Progress::Done,
            None => false,
        }
    }

    fn add_answers<T: Copy + Eq + Drop>(
        &self,
        alloc: A,
        events: &[Event<T, A>],
        own: OpenCall,
        answers: &mut Vec<Answer<T, A>, A>,
    ) -> Result<(), NoMemory> {
        for other in [false, true] {
            if let Some(answer) = self.answer_of(alloc, events, own, other)? {
                if answer != Answer::NoMemory && !answers.contains(&answer) {
                    answers.push(answer).map_err(AllocError::from)?;
                }
            }
        }
        Ok(())
    }
}
