//! Laws of a capacity that is set. These functions do nothing: each contract is a law.
ghost use Rattle.std.specs.Prelude.{◌≡◌, ◌↔◌, ℕ, ◌≤◌, Some, None};
ghost use Rattle.flume_model.specs.Log.{Log, Opening};
ghost use Rattle.flume_model.specs.Line.{capacity, queue_len};
ghost use Rattle.flume_model.specs.Replies.{IsRun};
ghost use Rattle.flume_model.specs.Resized.{set_to, IsResized, queued_at};

use std::alloc::Allocator;

/// In each run, setting the capacity changes only it, and how much of the line is queued.
pub fn setting_the_capacity_lets_blocked_messages_in<T, A: Allocator>()
    ensures law { (opening : Opening) (past : Log T A) (new : ℕ) → IsRun opening (set_to new past)
        → IsResized opening past (set_to new past) new (queued_at opening past new) }
{}

/// In each run, setting the capacity to what it was changes nothing.
pub fn setting_the_same_capacity_changes_nothing<T, A: Allocator>()
    ensures law { (opening : Opening) (past : Log T A) (same : ℕ)
        → IsRun opening (set_to same past) → capacity opening past ≡ Some same
        → IsResized opening past (set_to same past) same (queue_len opening past) }
{}

/// In each run, what a raised capacity let in stays queued after the capacity is lowered.
pub fn lowering_keeps_what_raising_let_in<T, A: Allocator>()
    ensures law { (opening : Opening) (past : Log T A) (high low : ℕ) → low ≤ high
        → IsRun opening (set_to low (set_to high past))
        → IsResized opening past (set_to low (set_to high past)) low
        (queued_at opening past high) }
{}

/// In each run, a channel stays bounded or unbounded, as it was opened.
pub fn a_channel_stays_bounded_or_unbounded<T, A: Allocator>()
    ensures law { (opening : Opening) (log : Log T A)
        → IsRun opening log → (capacity opening log ≡ None) ↔ (opening.capacity ≡ None) }
{}
