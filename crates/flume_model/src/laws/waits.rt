//! Laws of the parked receivers. These functions do nothing: each contract is a law.
ghost use Rattle.std.specs.Prelude.{◌≡◌, ℕ, true, false, List, [], Option};
ghost use Rattle.flume_model.specs.declared.entry.Entry.{Entry};
ghost use Rattle.flume_model.specs.Log.{Log, Opening};
ghost use Rattle.flume_model.specs.Counts.{senders, receivers, is_over};
ghost use Rattle.flume_model.specs.Entries.{round, round_fills, some_wait, woken_count};
ghost use Rattle.flume_model.specs.Limits.{IsOpen};
ghost use Rattle.flume_model.specs.Line.{line, blocked, next_ticket, is_live};
ghost use Rattle.flume_model.specs.Parked.{entries};
ghost use Rattle.flume_model.specs.Replies.{IsRun};
ghost use Rattle.flume_model.specs.WaitLaws.{DistinctTickets, Covered, Bounded, NobodyStuck};
ghost use Rattle.flume_model.specs.WaitLaws.{WokenBlockWhileClosed, TicketsDisjoint, FilledIfNamed};
ghost use Rattle.flume_model.specs.WakeRule.{IsWakeRound};

use std::alloc::Allocator;

/// A wake round follows its rule, and nothing else does.
pub fn wake_rounds_follow_their_rule<T, N>()
    ensures law { (notify : N → N) (front : T) (entries : List (Entry T N))
        → IsWakeRound notify front entries (round notify front entries) (round_fills entries) }
    ensures only { (notify : N → N) (front : T) (old new : List (Entry T N)) (filled : Option ℕ)
        → IsWakeRound notify front old new filled
        → (new ≡ round notify front old) × (filled ≡ round_fills old) }
{}

/// In each run, while a receiver waits, at least as many are woken as messages are queued.
pub fn waiting_receivers_are_covered<T, A: Allocator>()
    ensures law { (opening : Opening) (log : Log T A) → IsRun opening log → Covered opening log }
{}

/// Queued messages and waiting receivers are together within the greatest capacity or the peak.
pub fn queued_and_waiting_are_bounded<T, A: Allocator>()
    ensures law { (opening : Opening) (log : Log T A) → IsRun opening log → Bounded opening log }
{}

/// In each run, a receiver waits only while the channel is open and no sender is blocked.
pub fn receivers_wait_only_while_open<T, A: Allocator>()
    ensures law { (opening : Opening) (log : Log T A)
        → IsRun opening log → some_wait (entries opening log) ≡ true
        → IsOpen (senders log) (receivers log) × (blocked opening log ≡ []) }
{}

/// Once every woken receiver of a run has looked, nobody waits for a message or room that is there.
pub fn nobody_is_stuck<T, A: Allocator>()
    ensures law { (opening : Opening) (log : Log T A) → IsRun opening log
        → woken_count (entries opening log) ≡ 0 → NobodyStuck opening log }
{}

/// In each run, a receiver that blocks is woken only in a closed channel with no blocked sender.
pub fn blocking_receivers_are_woken_only_by_closing<T, A: Allocator>()
    ensures law { (opening : Opening) (log : Log T A)
        → IsRun opening log → WokenBlockWhileClosed opening log }
{}

/// In each run, tickets of parked receivers differ from each other and from those of live sends.
pub fn tickets_of_receivers_are_apart<T, A: Allocator>()
    ensures entries { (opening : Opening) (log : Log T A)
        → IsRun opening log → DistinctTickets (next_ticket opening log) (entries opening log) }
    ensures sides { (opening : Opening) (log : Log T A)
        → IsRun opening log → TicketsDisjoint opening log }
{}

/// In each run, a parked receiver holds a message exactly if some reply named it as filled.
pub fn receivers_are_filled_exactly_if_named<T, A: Allocator>()
    ensures law { (opening : Opening) (log : Log T A)
        → IsRun opening log → FilledIfNamed opening log }
{}

/// In each run, nothing is left once both sides have disconnected.
pub fn nothing_is_left_once_over<T, A: Allocator>()
    ensures law { (opening : Opening) (log : Log T A)
        → IsRun opening log → is_over log ≡ true
        → (line log ≡ []) × (entries opening log ≡ []) × ((t : ℕ) → is_live log t ≡ false) }
{}
