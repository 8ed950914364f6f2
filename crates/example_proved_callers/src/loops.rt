//! A loop over a channel without a lock.
ghost use Rattle.std.specs.Prelude.{◌≡◌, ℕ};
ghost use Rattle.flume_model.specs.declared.step.Reply.{Reply};
ghost use Rattle.flume_model.specs.Log.{Log, Opening};
ghost use Rattle.flume_model.specs.Conserved.{gives};
ghost use Rattle.flume.specs.Represents.{Represents, Extends};
ghost use Rattle.example_proved_callers.specs.Loops.{HasPassed, sum_of};

use flume::chan::Chan;
use flume_model::laws::theorem_holds_throughout;
use flume_model::step::{Reply, Step};
use std::alloc::Allocator;

/// Sends each number below this one, receives after each, and answers the sum of what came.
pub fn pass_all<A: Allocator + Copy>(chan: &mut Chan<u64, (), A>, count: u64) -> u64
    ensures passed { (opening : Opening) (log : Log ℕ A) → Represents opening log chan.old
        → HasPassed opening log count chan.new result }
{
    let mut sum = 0u64;
    for number in 0..count {
        chan.try_send(number);
        sum = sum.wrapping_add(receive_one(chan));
    }
    theorem_holds_throughout::<u64, A>();
    sum
}

fn receive_one<A: Allocator + Copy>(chan: &mut Chan<u64, (), A>) -> u64
    ensures step { (reply : Reply ℕ A) × Extends chan.old Step.TryRecv reply chan.new
        × (sum_of (gives reply) ≡ result) }
{
    match chan.try_recv() {
        Reply::Got(message) => message,
        Reply::Empty => 0,
        Reply::Ended => 0,
        _ => unreachable!(),
    }
}
