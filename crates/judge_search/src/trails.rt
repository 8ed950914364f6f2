//! By which choices the configurations of a search were entered.
use crate::call_records::CallRecords;
use crate::choice::Choice;
use judge_calls::event::Event;
use std::alloc::Allocator;

/// The last choice that led to a configuration, and the trail that led before it, which is an
/// earlier one.
#[derive(Clone, Copy, Debug, Drop)]
pub struct Trail {
    pub before: usize,
    pub choice: Choice,
}

/// The trails of all configurations that were entered, and how many of these by a step.
#[derive(Drop)]
pub struct Trails<A: Allocator> {
    pub list: Vec<Trail, A>,
    pub steps: usize,
    /// By which others are left out.
    pub records: CallRecords<A>,
}

impl<A: Allocator + Copy> Trails<A> {
    /// None yet. `None` if an allocation failed.
    pub fn new<T: Copy + Eq + Drop>(alloc: A, events: &[Event<T, A>]) -> Option<Self> {
        Some(Trails {
            list: Vec::new(alloc),
            steps: 0,
            records: CallRecords::new(alloc, events)?,
        })
    }

    /// `false`: an allocation failed.
    pub fn push(&mut self, trail: Trail) -> bool {
        if let Choice::MakeStep { .. } = trail.choice {
            self.steps = self.steps.saturating_add(1);
        }
        self.list.push(trail).is_ok()
    }
}

/// The choices of a trail, the first one first. `None`: an allocation failed.
pub fn path_by<A: Allocator + Copy>(
    alloc: A,
    trails: &[Trail],
    last: usize,
) -> Option<Vec<Choice, A>> {
    let mut path = Vec::new(alloc);
    let mut at = last;
    for _ in 0..trails.len() {
        if at == 0 {
            break;
        }
        let trail = trails.get(at - 1)?;
        path.push(trail.choice).ok()?;
        at = trail.before;
    }
    path.as_mut_slice().reverse();
    Some(path)
}
