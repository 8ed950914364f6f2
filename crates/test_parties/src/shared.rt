//! Two threads add to one list of numbers, of which only the length is kept.
ghost use Rattle.std.specs.Prelude.{◌≡◌, ◌<◌, ◌∷◌, [], length, true, false, IfSome};
ghost use Rattle.flume_party.specs.Parties.{party_of, and_made};

use flume_party::{Party, Records, SharedTrace};
use flume_trace::{TraceName, UnopenedTrace};
use std::marker::{Brand, Model};
use std::sync::ledger::{self, Ledger};
use std::sync::{Mutex, Wait};
use std::thread::{Threads, join};

// A number was added.
struct Adds;

impl Records<u64, u64> for Adds {
    ghost use Rattle.std.specs.Prelude.{◌≡◌, [], ◌∷◌};

    ghost may = { λ number before actions. actions ≡ number ∷ [] };
}

// What the lock protects: how many numbers were added, and which.
#[derive(Drop)]
struct Count<J: TraceName + Ledger> {
    added: u64,
    trace: SharedTrace<u64, J>,
}

impl<J: TraceName + Ledger> Model for Count<J> {
    ghost use Rattle.std.specs.Prelude.{◌≡◌, ℕ, List, length};

    ghost Value = { List ℕ };

    ghost view = { λ s. s.trace };

    ghost invariant = { λ s. s.added ≡ length s.trace };
}

impl<J: TraceName + Ledger> Count<J> {
    fn new(trace: SharedTrace<u64, J>) -> Count<J>
        requires empty { trace ≡ [] }
    {
        Count { added: 0, trace }
    }

    // Adds the number, unless the count is full.
    fn add(&mut self, party: &mut Party<u64, J>, number: u64) -> bool
        requires part { 0 < party.old.parts }
        ensures added { result ≡ true → party.new ≡ and_made party.old (number ∷ []) }
    {
        if self.added == u64::MAX {
            return false;
        }
        party.record::<u64, Adds>(&mut self.trace, &number);
        self.added += 1;
        true
    }

    // How many numbers the party added, which has all parts.
    fn added_by_all(&mut self, party: &mut Party<u64, J>) -> u64
        requires whole { party.old.parts ≡ J.parts }
        ensures all { result ≡ length party.old.actions }
    {
        party.audit(&mut self.trace);
        self.added
    }
}

// Adds one number.
fn add_one<J: TraceName + Ledger, R: Wait>(
    rt: &R,
    count: &Mutex<Count<J>>,
    mut party: Party<u64, J>,
    number: u64,
) -> Option<Party<u64, J>>
    requires part { party ≡ party_of 1 [] }
    ensures added { IfSome result (λ party. party ≡ party_of 1 (number ∷ [])) }
{
    if count.lock(rt).add(&mut party, number) {
        Some(party)
    } else {
        None
    }
}

/// Two threads add a number each, to a trace of this name: then two numbers were added.
pub fn two_add_named<J: TraceName + Ledger + Send + Sync, R: Threads + Wait + Sync>(
    rt: &R,
    names: UnopenedTrace,
    parts: ledger::Blank,
    first: u64,
    second: u64,
) -> Option<u64>
    requires names { (names.trace_name ≡ J.trace_name)
        × (names.positions_name ≡ J.positions_name) }
    requires parts { (parts.name ≡ J.name) × (parts.parts ≡ J.parts) }
    requires two { parts.parts ≡ 2 }
    ensures two { IfSome result (λ added. added ≡ 2) }
{
    let (trace, mut left) = SharedTrace::<u64, J>::open(names, parts);
    let right = left.split_off(1);
    let count = Mutex::new(Count::new(trace));
    let count = &count;
    let (left, right) = join(
        rt,
        || -> Option<Party<u64, J>>
            requires { left ≡ party_of 1 [] }
            ensures { IfSome result (λ party. party ≡ party_of 1 (first ∷ [])) }
        { add_one(rt, count, left, first) },
        || -> Option<Party<u64, J>>
            requires { right ≡ party_of 1 [] }
            ensures { IfSome result (λ party. party ≡ party_of 1 (second ∷ [])) }
        { add_one(rt, count, right, second) },
    );
    let Some(mut both) = left else {
        return None;
    };
    let Some(right) = right else {
        return None;
    };
    both.merge(right);
    Some(count.lock(rt).added_by_all(&mut both))
}

/// Two threads add a number each: then two numbers were added.
pub fn two_add<R: Threads + Wait + Sync>(rt: &R, first: u64, second: u64) -> Option<u64>
    ensures two { IfSome result (λ added. added ≡ 2) }
{
    two_add_named::<Brand, R>(
        rt,
        UnopenedTrace::new(),
        ledger::Blank::new(2),
        first,
        second,
    )
}
