//! Selections, of whichever arms a selector has.
ghost use Rattle.flume_deadline.specs.declared.Deadline.{Deadline};
ghost use Rattle.flume.specs.SelectionCalls.{Selects, Tries};
ghost use Rattle.flume.specs.SelectionParties.{HasSelected};

use flume::error::NoMemory;
use flume::select::{ArmsBy, AtLeastOneArm};
use flume::{SelectError, Selector};
use std::alloc::Allocator;
use std::time::Instant;

/// Tries each arm of a selector once. The answer is the value of the first arm that could go on. It
/// is `None` only if each arm would have to wait.
pub fn try_arms<V, L: AtLeastOneArm<V, A> + Drop, A: Allocator + Copy>(
    selector: Selector<'_, V, L, A>,
) -> Result<Option<V>, NoMemory>
    requires can_map { L.can_map (L.mappers selector.arms) }
    ensures tried { Tries L.turns L.answers (L.count (L.mappers selector.entry.arms))
        selector.entry.start selector.entry.arms result }
{
    selector.try_wait()
}

/// Waits for the first of several arms up to the deadline. The parties of the arms come back. After
/// a value, `selected` says what they did if one of the arms completed with that value; after an
/// error, what they did if none completed. By `made`, the arms were tried in turn, up to the first
/// that needn't wait; and if each had to, they were started and waited for.
pub fn select_in_time<V: Drop, L, A: Allocator + Copy>(
    selector: Selector<'_, V, L, A>,
    deadline: Instant,
) -> (Result<V, SelectError>, L::Parties)
where
    L: AtLeastOneArm<V, A> + ArmsBy<V, A> + Drop,
    requires can_map { L.can_map (L.mappers selector.arms) }
    requires no_arm_has_completed { L.all_idle selector.arms }
    ensures made { Selects L.turns L.withdraws L.answers (L.count (L.mappers selector.entry.arms))
        selector.entry.start (Deadline.At deadline) selector.entry.arms result.0 }
    ensures selected { HasSelected L.completes L.stand_by (L.mappers selector.entry.arms) result.0
        result.1 }
{
    let (answer, parties) = selector.wait_deadline_by(deadline);
    (answer, parties)
}
