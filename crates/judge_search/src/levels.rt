//! The search for choices that lead past all the events: level by level, each level with all the
//! configurations to which the one before it leads by an event, but for those in whose queue a
//! message stands that can't be received as recorded.
ghost use Rattle.std.specs.Prelude.{◌≡◌, ◌<◌, ◌+◌, ◌++◌, ◌∷◌, [], ℕ, IfSome, IsTrue, length};
ghost use Rattle.std.specs.List.{Contains};
ghost use Rattle.judge_search.specs.Dead.{CoverNext, IsDeadEnd};
ghost use Rattle.judge_search.specs.Levels.{AreDead, AreExpanded, Grows, IsExpanded, IsFollowed};
ghost use Rattle.judge_search.specs.Search.{configuration_at};

use crate::choice::Choice;
use crate::configuration::Configuration;
use crate::table::{ConfigurationAt, ConfigurationTable};
use crate::trails::{Trail, Trails, path_by};
use crate::tries::ChoiceOutcome;
use flume_core::error::NoMemory;
use judge_calls::event::Event;
use std::alloc::Allocator;

/// The result of a search.
#[derive(Drop)]
pub enum Searched<A: Allocator> {
    /// These choices lead past all the events.
    Path(Vec<Choice, A>),
    /// No choices do; some lead to the event at this place.
    Nothing(usize),
    NoMemory,
    /// The limit was reached. These choices lead to the event at this place.
    GaveUp(usize, Vec<Choice, A>),
}

/// Configurations before an event, without those that `seen` finds a second time.
#[derive(Drop)]
pub struct Level<A: Allocator> {
    seen: ConfigurationTable<A>,
    trails: Vec<usize, A>,
}

#[derive(Drop)]
enum Advanced<A: Allocator> {
    Next(Level<A>),
    /// This trail leads past all the events.
    AtEnd(usize),
    NoMemory,
    GaveUp,
}

#[derive(Clone, Copy, Debug, Drop)]
enum Expanded {
    Whole,
    AtEnd,
    NoMemory,
}

/// Choices that lead past all the events. It gives up once more than `limit` configurations were
/// entered by steps.
pub fn find_path<T: Copy + Eq + Drop, A: Allocator + Copy>(
    alloc: A,
    start: Configuration<A>,
    events: &[Event<T, A>],
    limit: usize,
) -> Searched<A>
    ensures nothing { (place : ℕ) → result ≡ Searched.Nothing place
        → IsDeadEnd T.eq events.now 0 start }
{
    let Some(mut trails) = Trails::new(alloc, events) else {
        return Searched::NoMemory;
    };
    let mut level = Level::new(alloc);
    if !level.add(start, 0, 0) {
        return Searched::NoMemory;
    }
    for place in 0..=events.len() {
        match level.advance(alloc, events, &mut trails, limit) {
            Advanced::Next(next) if next.seen.list.is_empty() => return Searched::Nothing(place),
            Advanced::Next(next) => level = next,
            Advanced::AtEnd(trail) => return path_result(path_by(
                alloc,
                trails.list.as_slice(),
                trail,
            )),
            Advanced::NoMemory => return Searched::NoMemory,
            Advanced::GaveUp => return gave_up(alloc, trails.list.as_slice(), &level),
        }
    }
    Searched::NoMemory
}

fn path_result<A: Allocator>(path: Option<Vec<Choice, A>>) -> Searched<A>
    ensures some { (place : ℕ) → (result ≡ Searched.Nothing place) → ⊥ }
{
    match path {
        Some(path) => Searched::Path(path),
        None => Searched::NoMemory,
    }
}

fn gave_up<A: Allocator + Copy>(alloc: A, trails: &[Trail], level: &Level<A>) -> Searched<A>
    ensures some { (place : ℕ) → (result ≡ Searched.Nothing place) → ⊥ }
{
    let place = level.place_at(0);
    match path_by(alloc, trails, level.trail_at(0)) {
        Some(path) => Searched::GaveUp(place, path),
        None => Searched::NoMemory,
    }
}

impl<A: Allocator + Copy> Level<A> {
    /// The level before any event.
    pub fn first(alloc: A, start: Configuration<A>) -> Result<Self, NoMemory> {
        let mut level = Level::new(alloc);
        if level.add(start, 0, 0) {
            Ok(level)
        } else {
            Err(NoMemory)
        }
    }

    /// The level after the next event, or an empty one if more than `limit` configurations were
    /// entered by steps.
    pub fn next<T: Copy + Eq + Drop>(
        &mut self,
        alloc: A,
        events: &[Event<T, A>],
        trails: &mut Trails<A>,
        limit: usize,
    ) -> Result<Self, NoMemory> {
        match self.advance(alloc, events, trails, limit) {
            Advanced::Next(next) => Ok(next),
            Advanced::NoMemory => Err(NoMemory),
            Advanced::AtEnd(_) | Advanced::GaveUp => Ok(Level::new(alloc)),
        }
    }

    /// The configurations, with their places.
    pub fn entered(&self) -> &[ConfigurationAt<A>] {
        &self.seen.list
    }

    fn new(alloc: A) -> Self
        ensures none { result.seen.list.items ≡ [] }
    {
        Level {
            seen: ConfigurationTable::new(alloc),
            trails: Vec::new(alloc),
        }
    }

    fn place_at(&self, index: usize) -> usize {
        match self.seen.list.get(index) {
            Some(one) => one.place,
            None => 0,
        }
    }

    fn trail_at(&self, index: usize) -> usize {
        self.trails.get(index).copied().unwrap_or(0)
    }

    // `false`: an allocation failed.
    fn add(&mut self, configuration: Configuration<A>, place: usize, trail: usize) -> bool
        ensures added { IsTrue result → self.new.seen.list.items
            ≡ self.old.seen.list.items ++ configuration_at place configuration ∷ [] }
    {
        self.seen.remember(configuration, place) && self.trails.push(trail).is_ok()
    }

    /// A copy of a configuration, if there is one.
    pub fn copy_at(&self, alloc: A, index: usize) -> Result<Option<Configuration<A>>, NoMemory> {
        match self.seen.list.get(index) {
            Some(one) => match one.configuration.try_clone(alloc) {
                Some(copy) => Ok(Some(copy)),
                None => Err(NoMemory),
            },
            None => Ok(None),
        }
    }

    /// `false`: an allocation failed.
    pub fn has_or_adds(&mut self, configuration: Configuration<A>, place: usize) -> bool {
        self.seen.has(&configuration, place) || self.add(configuration, place, 0)
    }

    // The level after the next event.
    fn advance<T: Copy + Eq + Drop>(
        &mut self,
        alloc: A,
        events: &[Event<T, A>],
        trails: &mut Trails<A>,
        limit: usize,
    ) -> Advanced<A>
        ensures next { (next : Level A) → result ≡ Advanced.Next next
            → AreDead T.eq events.now next.seen.list.items
            → AreDead T.eq events.now self.old.seen.list.items }
    {
        let mut next = Level::new(alloc);
        for index in 0..usize::MAX {
            if index >= self.seen.list.len() {
                return Advanced::Next(next);
            }
            if trails.steps > limit {
                return Advanced::GaveUp;
            }
            match self.expand(alloc, events, index, &mut next, trails) {
                Expanded::Whole => {}
                Expanded::AtEnd => return Advanced::AtEnd(self.trail_at(index)),
                Expanded::NoMemory => return Advanced::NoMemory,
            }
        }
        Advanced::GaveUp
    }

    fn expand<T: Copy + Eq + Drop>(
        &mut self,
        alloc: A,
        events: &[Event<T, A>],
        index: usize,
        next: &mut Level<A>,
        trails: &mut Trails<A>,
    ) -> Expanded
        requires within { index < length self.old.seen.list.items }
        ensures grown { result ≡ Expanded.Whole
            → Grows self.old.seen.list.items self.new.seen.list.items }
        ensures expanded { result ≡ Expanded.Whole
            → AreExpanded T.eq events.now index self.old.seen.list.items next.old.seen.list.items
            → AreExpanded T.eq events.now (index + 1) self.new.seen.list.items
            next.new.seen.list.items }
    {
        let before = self.trail_at(index);
        let one = &self.seen.list[index];
        let place = one.place;
        if place >= events.len() {
            return Expanded::AtEnd;
        }
        let Some(configuration) = one.configuration.try_clone(alloc) else {
            return Expanded::NoMemory;
        };
        if self.follow_all(alloc, events, &configuration, place, before, next, trails) {
            Expanded::Whole
        } else {
            Expanded::NoMemory
        }
    }

    fn follow_all<T: Copy + Eq + Drop>(
        &mut self,
        alloc: A,
        events: &[Event<T, A>],
        configuration: &Configuration<A>,
        place: usize,
        before: usize,
        next: &mut Level<A>,
        trails: &mut Trails<A>,
    ) -> bool
        requires within { place < length events.now }
        ensures grown { IsTrue result → Grows self.old.seen.list.items self.new.seen.list.items }
        ensures grown_next { IsTrue result
            → Grows next.old.seen.list.items next.new.seen.list.items }
        ensures expanded { IsTrue result → IsExpanded T.eq events.now self.new.seen.list.items
            next.new.seen.list.items (configuration_at place configuration.now) }
    {
        let Some(mut choices) = configuration.what_may_come(alloc, events, place) else {
            return false;
        };
        while let Some(choice) = choices.pop() {
            let trail = Trail { before, choice };
            if !self.follow(alloc, events, configuration, place, trail, next, trails) {
                return false;
            }
        }
        true
    }

    fn follow<T: Copy + Eq + Drop>(
        &mut self,
        alloc: A,
        events: &[Event<T, A>],
        configuration: &Configuration<A>,
        place: usize,
        trail: Trail,
        next: &mut Level<A>,
        trails: &mut Trails<A>,
    ) -> bool
        requires within { place < length events.now }
        ensures grown { IsTrue result → Grows self.old.seen.list.items self.new.seen.list.items }
        ensures grown_next { IsTrue result
            → Grows next.old.seen.list.items next.new.seen.list.items }
        ensures followed { IsTrue result → IsFollowed T.eq events.now self.new.seen.list.items
            next.new.seen.list.items place configuration.now trail.choice }
    {
        match configuration.try_choice(alloc, events, place, trail.choice) {
            ChoiceOutcome::Leads(new, at) if trails.records.are_overtaking(events, &new, at) =>
                true,
            ChoiceOutcome::Leads(new, at) if at == place => self.enter(new, at, trail, trails),
            ChoiceOutcome::Leads(new, at) => next.enter(new, at, trail, trails),
            ChoiceOutcome::Spent => true,
            ChoiceOutcome::NoMemory => false,
        }
    }

    fn enter(
        &mut self,
        configuration: Configuration<A>,
        place: usize,
        trail: Trail,
        trails: &mut Trails<A>,
    ) -> bool
        ensures grown { IsTrue result → Grows self.old.seen.list.items self.new.seen.list.items }
        ensures entered { IsTrue result
            → Contains self.new.seen.list.items (configuration_at place configuration) }
    {
        if self.seen.has(&configuration, place) {
            return true;
        }
        trails.push(trail) && self.add(configuration, place, trails.list.len())
    }
}

impl<A: Allocator + Copy> Configuration<A> {
    fn what_may_come<T: Copy + Eq + Drop>(
        &self,
        alloc: A,
        events: &[Event<T, A>],
        place: usize,
    ) -> Option<Vec<Choice, A>>
        requires within { place < length events.now }
        ensures cover { IfSome result (λ choices.
            CoverNext T.eq events.now place self.now choices.items) }
    {
        match self.returning_call(events, place) {
            Some(own) => self.choices(alloc, own),
            None => only_event(alloc),
        }
    }
}

fn only_event<A: Allocator + Copy>(alloc: A) -> Option<Vec<Choice, A>>
    ensures event { IfSome result (λ choices. choices.items ≡ Choice.TakeEvent ∷ []) }
{
    let mut choices = Vec::new(alloc);
    if choices.extend_from_slice(&[Choice::TakeEvent]).is_ok() {
        Some(choices)
    } else {
        None
    }
}
