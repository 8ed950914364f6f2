//! Whether a correct channel could have produced a history.
ghost use Rattle.std.specs.Prelude.{◌≡◌, ◌↔◌, ℕ};
ghost use Rattle.flume_model.specs.Log.{opens};
ghost use Rattle.flume_history.specs.Equal.{Equals};
ghost use Rattle.flume_history.specs.Histories.{IsHistory, BreaksAt};

use crate::follow::{Followed, follow_reply};
use flume_core::chan::Chan;
use flume_model::step::{Reply, Step};
use std::alloc::Allocator;

/// The result of a check.
#[derive(Clone, Copy, Debug, PartialEq, Eq, Drop)]
pub enum Checked {
    Run,
    /// This many replies are lawful, and the next one isn't.
    Breaks(usize),
    /// The check itself ran out of memory: nothing is known.
    NoMemory,
}

/// Whether a correct channel of this capacity (`None`: unbounded) could have produced this history,
/// the oldest step first. Messages are compared by their `Eq`. `NoMemory` is lawful if any channel
/// might have run out at that step, also if a `Chan` never does.
/// ```
/// let history = [
///     (Step::TrySend(5), Reply::Sent { filled: None }),
///     (Step::TryRecv, Reply::Got(6)),
/// ];
/// check_history(alloc, None, &history);      // Breaks(1): Got(5) was lawful
/// ```
pub fn check_history<T: Copy + Eq + Drop, A: Allocator + Copy>(
    alloc: A,
    capacity: Option<usize>,
    history: &[(Step<T>, Reply<T, A>)],
) -> Checked
    ensures run { (result ≡ Checked.NoMemory → ⊥) → ((result ≡ Checked.Run)
        ↔ IsHistory (Equals T.eq) (opens capacity 1) history.now) }
    ensures breaks { (place : ℕ) → result ≡ Checked.Breaks place
        → BreaksAt (Equals T.eq) (opens capacity 1) history.now place }
{
    let mut chan = Chan::new(alloc, capacity);
    for place in 0..history.len() {
        let (step, recorded) = &history[place];
        match follow_reply(&mut chan, step, recorded) {
            Followed::Lawful(reply) => drop(reply),
            Followed::Unlawful => return Checked::Breaks(place),
            Followed::NoMemory => return Checked::NoMemory,
        }
    }
    Checked::Run
}
