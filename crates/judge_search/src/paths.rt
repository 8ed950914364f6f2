//! Choices that lead from the start of a channel past all the events.
ghost use Rattle.std.specs.Prelude.{◌≡◌, ℕ, IfOk, IfSome, IsTrue};
ghost use Rattle.std.specs.declared.vec.Vec.{Vec};
ghost use Rattle.flume_model.specs.Log.{opens};
ghost use Rattle.judge_calls.specs.Explanations.{IsExplained};
ghost use Rattle.judge_search.specs.Search.{AreExplained};
ghost use Rattle.judge_search.specs.declared.choice.Choice.{Choice};

use crate::choice::Choice;
use crate::configuration::Configuration;
use crate::guess::guess_path;
use crate::levels::{Searched, find_path};
use crate::refuted::refuted_at;
use crate::replay::{Failure, make_choices};
use flume_core::error::NoMemory;
use judge_calls::event::Event;
use judge_calls::explanation::{Explained, check_explanation};
use std::alloc::Allocator;

/// The result of a search.
#[derive(Drop)]
pub enum Found<A: Allocator> {
    Path(Vec<Choice, A>),
    /// There is no path. At this place a pattern was seen, or the search came no further.
    Nothing(usize),
    NoMemory,
    /// The limit was reached, with configurations before the event at this place.
    GaveUp(usize),
}

/// How many configurations a guess enters at most, if its caller allows as many.
#[derive(Clone, Copy, Debug, Drop)]
struct GuessLimit {
    at_least: usize,
    per_event: usize,
}

// To look for patterns takes more than a guess if there are more events.
const MANY_EVENTS: usize = 2_000;

const SHORT_GUESS: GuessLimit = GuessLimit {
    at_least: 1_000,
    per_event: 2,
};

const LONG_GUESS: GuessLimit = GuessLimit {
    at_least: 10_000,
    per_event: 10,
};

/// Choices that lead past all the events, on a channel of this capacity (`None`: unbounded). If no
/// pattern shows that there are none, a guess and a search follow, limited as of `explain`. Of many
/// events, a short guess comes before the patterns.
pub fn find_choices<T: Copy + Eq + Drop, A: Allocator + Copy>(
    alloc: A,
    capacity: Option<usize>,
    events: &[Event<T, A>],
    limit: usize,
) -> Found<A>
    ensures path { (path : Vec Choice A) → result ≡ Found.Path path
        → IsExplained T.eq (opens capacity 1) events.now }
    ensures nothing { (furthest : ℕ) → result ≡ Found.Nothing furthest
        → IsExplained T.eq (opens capacity 1) events.now → ⊥ }
    ensures gave_up { (furthest : ℕ) → result ≡ Found.GaveUp furthest
        → AreExplained T.eq (opens capacity 1) events.now furthest }
{
    if events.len() > MANY_EVENTS
        && let Some(path) = guess_choices(alloc, capacity, events, limit, SHORT_GUESS)
    {
        return Found::Path(path);
    }
    match refuted_at(alloc, events) {
        Ok(Some(place)) => Found::Nothing(place),
        Ok(None) => search_choices(alloc, capacity, events, limit),
        Err(NoMemory) => Found::NoMemory,
    }
}

fn search_choices<T: Copy + Eq + Drop, A: Allocator + Copy>(
    alloc: A,
    capacity: Option<usize>,
    events: &[Event<T, A>],
    limit: usize,
) -> Found<A>
    ensures path { (path : Vec Choice A) → result ≡ Found.Path path
        → IsExplained T.eq (opens capacity 1) events.now }
    ensures nothing { (furthest : ℕ) → result ≡ Found.Nothing furthest
        → IsExplained T.eq (opens capacity 1) events.now → ⊥ }
    ensures gave_up { (furthest : ℕ) → result ≡ Found.GaveUp furthest
        → AreExplained T.eq (opens capacity 1) events.now furthest }
{
    if let Some(path) = guess_choices(alloc, capacity, events, limit, LONG_GUESS) {
        return Found::Path(path);
    }
    let start = Configuration::new(alloc, capacity);
    match find_path(alloc, start, events, limit) {
        Searched::Path(path) => checked_path(alloc, capacity, events, path),
        Searched::Nothing(place) => Found::Nothing(place),
        Searched::NoMemory => Found::NoMemory,
        Searched::GaveUp(place, path) => checked_place(alloc, capacity, events, place, &path),
    }
}

fn checked_path<T: Copy + Eq + Drop, A: Allocator + Copy>(
    alloc: A,
    capacity: Option<usize>,
    events: &[Event<T, A>],
    path: Vec<Choice, A>,
) -> Found<A>
    ensures path { (path : Vec Choice A) → result ≡ Found.Path path
        → IsExplained T.eq (opens capacity 1) events.now }
    ensures some { (furthest : ℕ) → (result ≡ Found.Nothing furthest) → ⊥ }
    ensures gave_up { (furthest : ℕ) → result ≡ Found.GaveUp furthest
        → AreExplained T.eq (opens capacity 1) events.now furthest }
{
    match are_explained_by(alloc, capacity, events, path.as_slice()) {
        Ok(true) => Found::Path(path),
        Ok(false) => Found::GaveUp(0),
        Err(NoMemory) => Found::NoMemory,
    }
}

fn checked_place<T: Copy + Eq + Drop, A: Allocator + Copy>(
    alloc: A,
    capacity: Option<usize>,
    events: &[Event<T, A>],
    place: usize,
    path: &[Choice],
) -> Found<A>
    ensures no_path { (path : Vec Choice A) → (result ≡ Found.Path path) → ⊥ }
    ensures some { (furthest : ℕ) → (result ≡ Found.Nothing furthest) → ⊥ }
    ensures gave_up { (furthest : ℕ) → result ≡ Found.GaveUp furthest
        → AreExplained T.eq (opens capacity 1) events.now furthest }
{
    if place > events.len() {
        return Found::GaveUp(0);
    }
    match are_explained_by(alloc, capacity, &events[..place], path) {
        Ok(true) => Found::GaveUp(place),
        Ok(false) => Found::GaveUp(0),
        Err(NoMemory) => Found::NoMemory,
    }
}

fn guess_choices<T: Copy + Eq + Drop, A: Allocator + Copy>(
    alloc: A,
    capacity: Option<usize>,
    events: &[Event<T, A>],
    limit: usize,
    guess: GuessLimit,
) -> Option<Vec<Choice, A>>
    ensures explained { IfSome result (λ path.
        IsExplained T.eq (opens capacity 1) events.now) }
{
    let most = events
        .len()
        .saturating_mul(guess.per_event)
        .saturating_add(guess.at_least);
    let start = Configuration::new(alloc, capacity);
    let path = guess_path(alloc, start, events, limit.min(most))?;
    match are_explained_by(alloc, capacity, events, path.as_slice()) {
        Ok(true) => Some(path),
        _ => None,
    }
}

fn are_explained_by<T: Copy + Eq + Drop, A: Allocator + Copy>(
    alloc: A,
    capacity: Option<usize>,
    events: &[Event<T, A>],
    path: &[Choice],
) -> Result<bool, NoMemory>
    ensures explained { IfOk result (λ yes. IsTrue yes
        → IsExplained T.eq (opens capacity 1) events.now) }
{
    let items = match make_choices(alloc, capacity, events, path) {
        Ok(items) => items,
        Err(Failure::NoMemory) => return Err(NoMemory),
        Err(Failure::NoPath) => return Ok(false),
    };
    match check_explanation(alloc, capacity, items.as_slice()) {
        Explained::Explains => Ok(true),
        Explained::Breaks(_) => Ok(false),
        Explained::NoMemory => Err(NoMemory),
    }
}
