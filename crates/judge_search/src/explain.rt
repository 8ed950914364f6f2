//! Looks for an explanation of the events that threads recorded.
ghost use Rattle.std.specs.Prelude.{◌≡◌, ◌≤◌, ℕ};
ghost use Rattle.std.specs.declared.vec.Vec.{Vec};
ghost use Rattle.flume_model.specs.Log.{opens};
ghost use Rattle.judge_calls.specs.Explanations.{events_in, IsExplained};
ghost use Rattle.judge_calls.specs.Descriptions.{DescribeExplanation};
ghost use Rattle.judge_calls.specs.declared.event.Item.{Item};
ghost use Rattle.judge_search.specs.Search.{AreExplained, BreaksAfter, UnexplainedAfter};

use crate::choice::Choice;
use crate::paths::{Found, find_choices};
use crate::replay::{Failure, make_choices};
use judge_calls::event::{Event, Item};
use judge_calls::explanation::{Explained, check_explanation};
use std::alloc::Allocator;

/// The result of a search for an explanation.
#[derive(Drop)]
pub enum Explanation<T, A: Allocator> {
    /// These items explain the events.
    Explained(Vec<Item<T, A>, A>),
    Unexplained,
    NoMemory,
    /// The limit was reached: this many events are explained, and nothing is known of more. If that
    /// is all of them, the items weren't found.
    GaveUp(usize),
}

/// How far recorded events are explained.
#[derive(Clone, Copy, Debug, PartialEq, Eq, Drop)]
pub enum Checked {
    Explained,
    /// This many events are explained, and with the next one they aren't.
    Breaks(usize),
    /// This many events are explained, and all of them aren't; the limit was reached in between.
    Unexplained(usize),
    NoMemory,
    /// The limit was reached: this many events are explained, and nothing is known of more.
    GaveUp(usize),
}

/// Looks for an explanation of the events, the oldest first, on a channel of this capacity (`None`:
/// unbounded). A guess enters at most `limit` configurations. Then a search enters so many by steps,
/// and at most those more to which the steps from one configuration lead.
pub fn explain<T: Copy + Eq + Drop, A: Allocator + Copy>(
    alloc: A,
    capacity: Option<usize>,
    events: &[Event<T, A>],
    limit: usize,
) -> Explanation<T, A>
    ensures events { (items : Vec (Item T A) A) → result ≡ Explanation.Explained items
        → events_in items.items ≡ events.now }
    ensures explains { (items : Vec (Item T A) A) → result ≡ Explanation.Explained items
        → DescribeExplanation T.eq (opens capacity 1) items.items }
    ensures explained { (items : Vec (Item T A) A) → result ≡ Explanation.Explained items
        → IsExplained T.eq (opens capacity 1) events.now }
    ensures unexplained { result ≡ Explanation.Unexplained
        → IsExplained T.eq (opens capacity 1) events.now → ⊥ }
    ensures gave_up { (count : ℕ) → result ≡ Explanation.GaveUp count
        → AreExplained T.eq (opens capacity 1) events.now count }
{
    match find_choices(alloc, capacity, events, limit) {
        Found::Path(path) => explained_by(alloc, capacity, events, path.as_slice()),
        Found::Nothing(_) => Explanation::Unexplained,
        Found::NoMemory => Explanation::NoMemory,
        Found::GaveUp(place) => Explanation::GaveUp(place),
    }
}

/// Finds how many events are explained, the oldest first, on a channel of this capacity (`None`:
/// unbounded). The limit for all of them is as of `explain`; for fewer events it is a tenth. A pattern
/// that refutes them spares the guess and the search.
pub fn check_calls<T: Copy + Eq + Drop, A: Allocator + Copy>(
    alloc: A,
    capacity: Option<usize>,
    events: &[Event<T, A>],
    limit: usize,
) -> Checked
    ensures explained { result ≡ Checked.Explained
        → IsExplained T.eq (opens capacity 1) events.now }
    ensures breaks { (count : ℕ) → result ≡ Checked.Breaks count
        → BreaksAfter T.eq (opens capacity 1) events.now count }
    ensures unexplained { (count : ℕ) → result ≡ Checked.Unexplained count
        → UnexplainedAfter T.eq (opens capacity 1) events.now count }
    ensures gave_up { (count : ℕ) → result ≡ Checked.GaveUp count
        → AreExplained T.eq (opens capacity 1) events.now count }
{
    match find_choices(alloc, capacity, events, limit) {
        Found::Path(_) => Checked::Explained,
        Found::Nothing(place) => find_break(alloc, capacity, events, limit / 10, place),
        Found::NoMemory => Checked::NoMemory,
        Found::GaveUp(place) => Checked::GaveUp(place),
    }
}

fn explained_by<T: Copy + Eq + Drop, A: Allocator + Copy>(
    alloc: A,
    capacity: Option<usize>,
    events: &[Event<T, A>],
    path: &[Choice],
) -> Explanation<T, A>
    requires { IsExplained T.eq (opens capacity 1) events.now }
    ensures events { (items : Vec (Item T A) A) → result ≡ Explanation.Explained items
        → events_in items.items ≡ events.now }
    ensures explains { (items : Vec (Item T A) A) → result ≡ Explanation.Explained items
        → DescribeExplanation T.eq (opens capacity 1) items.items }
    ensures explained { (items : Vec (Item T A) A) → result ≡ Explanation.Explained items
        → IsExplained T.eq (opens capacity 1) events.now }
    ensures gave_up { (count : ℕ) → result ≡ Explanation.GaveUp count
        → AreExplained T.eq (opens capacity 1) events.now count }
    ensures found { result ≡ Explanation.Unexplained → ⊥ }
{
    let items = match make_choices(alloc, capacity, events, path) {
        Ok(items) => items,
        Err(Failure::NoMemory) => return Explanation::NoMemory,
        Err(Failure::NoPath) => return Explanation::GaveUp(events.len()),
    };
    match check_explanation(alloc, capacity, items.as_slice()) {
        Explained::Explains => Explanation::Explained(items),
        Explained::Breaks(_) => Explanation::GaveUp(events.len()),
        Explained::NoMemory => Explanation::NoMemory,
    }
}

// The step doubles, up to half of what is undecided.
fn find_break<T: Copy + Eq + Drop, A: Allocator + Copy>(
    alloc: A,
    capacity: Option<usize>,
    events: &[Event<T, A>],
    limit: usize,
    first: usize,
) -> Checked
    requires { IsExplained T.eq (opens capacity 1) events.now → ⊥ }
    ensures found { result ≡ Checked.Explained → ⊥ }
    ensures breaks { (count : ℕ) → result ≡ Checked.Breaks count
        → BreaksAfter T.eq (opens capacity 1) events.now count }
    ensures unexplained { (count : ℕ) → result ≡ Checked.Unexplained count
        → UnexplainedAfter T.eq (opens capacity 1) events.now count }
    ensures decided { (count : ℕ) → result ≡ Checked.GaveUp count → ⊥ }
{
    let mut low = 0;
    let mut high = events.len();
    let mut next = first;
    let mut step = 1;
    while low + 1 < high {
        let count = next.clamp(low + 1, high - 1);
        match find_choices(alloc, capacity, &events[..count], limit) {
            Found::Path(_) => {
                low = count;
                next = low + half_at_most(step, high - low);
            }
            Found::Nothing(_) => {
                high = count;
                next = high - half_at_most(step, high - low);
            }
            Found::NoMemory => return Checked::NoMemory,
            Found::GaveUp(place) => return Checked::Unexplained(low.max(place)),
        }
        step = step.saturating_mul(2);
    }
    Checked::Breaks(low)
}

fn half_at_most(step: usize, width: usize) -> usize
    ensures half { result ≤ width }
{
    step.min(width / 2)
}
