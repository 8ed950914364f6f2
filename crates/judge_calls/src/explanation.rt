//! Whether steps that are put between events explain them.
ghost use Rattle.std.specs.Prelude.{◌≡◌, ◌↔◌, ℕ, List};
ghost use Rattle.flume_model.specs.Log.{Opening, opens};
ghost use Rattle.judge_calls.specs.Explanations.{events_in, IsExplained};
ghost use Rattle.judge_calls.specs.Descriptions.{DescribeExplanation, BreaksAt};
ghost use Rattle.judge_calls.specs.Following.{LeadTo, ComesNext, NeverComesNext};
ghost use Rattle.judge_calls.specs.declared.event.Item.{Item};

use crate::event::{Event, Item};
use crate::open::{OpenCalls, may_happen, own_step, take_event, take_step};
use flume_core::chan::Chan;
use flume_history::follow::{Followed, follow_reply};
use flume_model::step::{Reply, Step};
use std::alloc::Allocator;
use std::collections::BTreeMap;

/// The result of a check.
#[derive(Clone, Copy, Debug, PartialEq, Eq, Drop)]
pub enum Explained {
    Explains,
    /// This many items are an explanation, and with the next one they aren't.
    Breaks(usize),
    /// The check itself ran out of memory: nothing is known.
    NoMemory,
}

/// Whether the items, the oldest first, explain their events on a new channel (`None`: unbounded):
/// each step and answer is one that its call may have, each reply lawful, by the messages' `Eq`.
/// ```
/// let items = [
///     Item::Happens(Event::Begins { thread: 0, call: Call::TrySend(5) }),
///     Item::Makes { thread: 0, step: Step::TrySend(5), reply: Reply::Sent { filled: None } },
///     Item::Happens(Event::Returns { thread: 0, answer: Answer::Full }),
/// ];
/// check_explanation(alloc, None, &items);      // Breaks(2): the call is to return `Sent`
/// ```
pub fn check_explanation<T: Copy + Eq + Drop, A: Allocator + Copy>(
    alloc: A,
    capacity: Option<usize>,
    items: &[Item<T, A>],
) -> Explained
    ensures explains { (result ≡ Explained.NoMemory → ⊥) → ((result ≡ Explained.Explains)
        ↔ DescribeExplanation T.eq (opens capacity 1) items.now) }
    ensures breaks { (place : ℕ) → result ≡ Explained.Breaks place
        → BreaksAt T.eq (opens capacity 1) items.now place }
    ensures explained { result ≡ Explained.Explains
        → IsExplained T.eq (opens capacity 1) (events_in items.now) }
{
    let mut chan = Chan::new(alloc, capacity);
    let mut calls = BTreeMap::new(alloc);
    for place in 0..items.len() {
        match take_item(&mut chan, &mut calls, &items[place]) {
            Taken::Lawful => {}
            Taken::Unlawful => return Explained::Breaks(place),
            Taken::NoMemory => return Explained::NoMemory,
        }
    }
    Explained::Explains
}

#[derive(Drop)]
enum Taken {
    Lawful,
    Unlawful,
    NoMemory,
}

fn take_item<T: Copy + Eq + Drop, A: Allocator + Copy>(
    chan: &mut Chan<T, (), A>,
    calls: &mut OpenCalls<T, A>,
    item: &Item<T, A>,
) -> Taken
    ensures lawful { result ≡ Taken.Lawful → (opening : Opening) (past : List (Item T A))
        → LeadTo opening past calls.old chan.old
        → ComesNext T.eq opening past item.now calls.new chan.new }
    ensures not_lawful { result ≡ Taken.Unlawful → (opening : Opening) (past : List (Item T A))
        → LeadTo opening past calls.old chan.old → NeverComesNext T.eq opening past item.now }
{
    match item {
        Item::Happens(event) => happens(chan, calls, event),
        Item::Makes {
            thread,
            step,
            reply,
        } => makes(chan, calls, *thread, step, reply),
    }
}

fn happens<T: Copy + Eq + Drop, A: Allocator + Copy>(
    chan: &Chan<T, (), A>,
    calls: &mut OpenCalls<T, A>,
    event: &Event<T, A>,
) -> Taken
    ensures lawful { result ≡ Taken.Lawful → (opening : Opening) (past : List (Item T A))
        → LeadTo opening past calls.old chan.now
        → ComesNext T.eq opening past (Item.Happens event.now) calls.new chan.now }
    ensures not_lawful { result ≡ Taken.Unlawful → (opening : Opening) (past : List (Item T A))
        → LeadTo opening past calls.old chan.now
        → NeverComesNext T.eq opening past (Item.Happens event.now) }
{
    if !may_happen(calls, event) {
        return Taken::Unlawful;
    }
    if take_event(calls, event) {
        Taken::Lawful
    } else {
        Taken::NoMemory
    }
}

fn makes<T: Copy + Eq + Drop, A: Allocator + Copy>(
    chan: &mut Chan<T, (), A>,
    calls: &mut OpenCalls<T, A>,
    thread: usize,
    step: &Step<T>,
    recorded: &Reply<T, A>,
) -> Taken
    ensures lawful { result ≡ Taken.Lawful → (opening : Opening) (past : List (Item T A))
        → LeadTo opening past calls.old chan.old
        → ComesNext T.eq opening past (Item.Makes thread step.now recorded.now) calls.new chan.new }
    ensures not_lawful { result ≡ Taken.Unlawful → (opening : Opening) (past : List (Item T A))
        → LeadTo opening past calls.old chan.old
        → NeverComesNext T.eq opening past (Item.Makes thread step.now recorded.now) }
{
    let Some(own) = own_step(calls, thread, step) else {
        return Taken::Unlawful;
    };
    match follow_reply(chan, &own, recorded) {
        Followed::Lawful(reply) => {
            if take_step(calls, thread, reply) {
                Taken::Lawful
            } else {
                Taken::NoMemory
            }
        }
        Followed::Unlawful => Taken::Unlawful,
        Followed::NoMemory => Taken::NoMemory,
    }
}
