//! A selection through a gate.
ghost use Rattle.std.specs.Prelude.{◌≡◌, ◌≢◌, ◌<◌, ◌↔◌, ℕ, Bool, Some, IfOk, IfSome, IsTrue};
ghost use Rattle.std.specs.Prelude.{Err, true, false, is_some};
ghost use Rattle.flume_core.specs.declared.error.SelectError.{SelectError};
ghost use Rattle.flume_calls.specs.declared.gates.select.ArmNext.{ArmNext};
ghost use Rattle.flume_calls.specs.SelectGates.{next_arm, IsRound, IfCompleted, Withdraws};
ghost use Rattle.flume_calls.specs.SelectGates.{EndsAfter, HasCompleted, StartedSelection};
ghost use Rattle.flume_calls.specs.SelectGates.{WholeSelection, TriedSelection};
ghost use Rattle.flume_calls.specs.declared.gates.select.RoundEnd.{RoundEnd};

use flume_core::error::{NoMemory, SelectError};
use std::sync::Wait;

/// What a turn of an arm leads to.
#[derive(Clone, Copy, Drop)]
pub enum ArmNext {
    Completed,
    /// It is parked, or may not park and wasn't started.
    Waits,
    NoMemory,
}

/// How a selection reaches its channels, by arms numbered from 0. Relations are as in `RecvGate`.
pub trait SelectGate {
    /// What the selection waits on.
    type Waiter: Drop;

    /// What stays the same throughout a selection.
    type Setup;

    ghost setup: { Self → Self.Setup };

    ghost count: { Self.Setup → ℕ };

    ghost start: { Self.Setup → ℕ };

    ghost is_done: { Self → ℕ → Type 0 };

    ghost makes: { Self → Self → Bool → Type 0 };

    // With whether the arm may park.
    ghost turns: { Bool → Self → ℕ → Self → ArmNext → Type 0 };

    ghost waits: { Self → Self → Bool → Type 0 };

    ghost withdraws: { Self → ℕ → Self → Type 0 };

    /// How many arms there are.
    fn count(&self) -> usize
        ensures count { result ≡ count (setup self.now) };

    /// The arm that each round begins with.
    fn start(&self) -> usize
        ensures start { result ≡ start (setup self.now) }
        ensures within { result < count (setup self.now) };

    /// Makes the waiter. `None`: out of memory.
    fn make_waiter(&mut self) -> Option<Self::Waiter>
        ensures does { makes self.old self.new (is_some result) }
        ensures setup { setup self.new ≡ setup self.old };

    /// Starts or polls the arm. Without a waiter, one that would have to wait stays as it was.
    fn turn(&mut self, arm: usize, waiter: Option<&Self::Waiter>) -> ArmNext
        requires within { arm < count (setup self.old) }
        ensures does { turns (is_some waiter.entry) self.old arm self.new result }
        ensures completed { result ≡ ArmNext.Completed → is_done self.new arm }
        ensures setup { setup self.new ≡ setup self.old };

    /// Waits for a wake or for the deadline. True, at once, if the deadline is reached.
    fn wait(&mut self, waiter: &Self::Waiter) -> bool
        ensures does { waits self.old self.new result }
        ensures setup { setup self.new ≡ setup self.old };

    /// Withdraws an arm that was started.
    fn withdraw(&mut self, arm: usize)
        requires within { arm < count (setup self.old) }
        ensures does { withdraws self.old arm self.new }
        ensures others { (other : ℕ) → other ≢ arm → is_done self.old other
            → is_done self.new other }
        ensures setup { setup self.new ≡ setup self.old };
}

#[derive(Clone, Copy, Drop)]
enum RoundEnd {
    AllWait,
    // After `before` turns of other arms.
    Completed { before: usize, arm: usize },
    NoMemory { before: usize },
}

/// The number of the first arm that completes. The arms have their turns in cyclic order from the
/// start arm on: at first, after each wait, and at the deadline. Other started arms are withdrawn.
/// `Timeout`: none completed by the deadline. `NoMemory`: none for the waiter, or in an arm.
/// ```
/// // The gate is of two arms, of which arm 0 starts.
/// let ended = select_over(rt, &mut gate);
/// // arm 0 completes as it is started:             Ok(0), and arm 1 was never started
/// // both wait, and arm 1 completes after a wake:  Ok(1), and arm 0 was withdrawn
/// // the deadline is reached before either does:   Err(Timeout), and both were withdrawn
/// ```
pub fn select_over<R: Wait, G: SelectGate>(rt: &R, gate: &mut G) -> Result<usize, SelectError>
    ensures run { WholeSelection G.makes (G.turns true) G.waits G.withdraws
        (G.count (G.setup gate.old)) (G.start (G.setup gate.old)) gate.old gate.new result }
    ensures completed { IfOk result (HasCompleted G.is_done (G.count (G.setup gate.old)) gate.new) }
    ensures in_time { ((old new : G) → G.setup old ≡ G.setup gate.old → ¬ (G.waits old new true))
        → result ≢ Err SelectError.Timeout }
    ensures setup { G.setup gate.new ≡ G.setup gate.old }
{
    let Some(waiter) = gate.make_waiter() else {
        return Err(SelectError::NoMemory);
    };
    match round(gate, Some(&waiter)) {
        RoundEnd::AllWait => started_selection(rt, gate, &waiter),
        RoundEnd::Completed { before, arm } => {
            withdraw(gate, before, Some(arm));
            Ok(arm)
        }
        RoundEnd::NoMemory { before } => {
            withdraw(gate, before, None);
            Err(SelectError::NoMemory)
        }
    }
}

/// The number of the first arm that needn't wait, in cyclic order from the start arm on; `None` if
/// each would have to. `NoMemory`: out of memory in an arm, and those after it weren't tried.
/// ```
/// // The gate is of two arms, of which arm 0 starts.
/// let ended = try_select_over(&mut gate);
/// // arm 0 needn't wait:                           Ok(Some(0)), and arm 1 was never started
/// // arm 0 would have to wait, and arm 1 needn't:  Ok(Some(1)), and both were tried
/// // both would have to wait:                      Ok(None), and both were tried
/// ```
pub fn try_select_over<G: SelectGate>(gate: &mut G) -> Result<Option<usize>, NoMemory>
    ensures run { TriedSelection (G.turns false) (G.count (G.setup gate.old))
        (G.start (G.setup gate.old)) gate.old gate.new result }
    ensures completed { IfOk result (λ arm. IfSome arm
        (HasCompleted G.is_done (G.count (G.setup gate.old)) gate.new)) }
    ensures setup { G.setup gate.new ≡ G.setup gate.old }
{
    let nothing: Option<G::Waiter> = None;
    match round(gate, nothing.as_ref()) {
        RoundEnd::AllWait => Ok(None),
        RoundEnd::Completed { arm, .. } => Ok(Some(arm)),
        RoundEnd::NoMemory { .. } => Err(NoMemory),
    }
}

fn started_selection<R: Wait, G: SelectGate>(
    rt: &R,
    gate: &mut G,
    waiter: &G::Waiter,
) -> Result<usize, SelectError>
    ensures run { StartedSelection (G.turns true) G.waits G.withdraws (G.count (G.setup gate.old))
        (G.start (G.setup gate.old)) gate.old gate.new result }
    ensures completed { IfOk result (HasCompleted G.is_done (G.count (G.setup gate.old)) gate.new) }
    ensures in_time { ((old new : G) → G.setup old ≡ G.setup gate.old → ¬ (G.waits old new true))
        → result ≢ Err SelectError.Timeout }
    ensures setup { G.setup gate.new ≡ G.setup gate.old }
{
    for _ in rt.forever() {
        let polled = round(gate, Some(waiter));
        match polled {
            RoundEnd::AllWait => {}
            _ => return end_selection(gate, polled),
        }
        if gate.wait(waiter) {
            let last = round(gate, Some(waiter));
            return end_selection(gate, last);
        }
    }
    unreachable!()
}

fn end_selection<G: SelectGate>(gate: &mut G, round: RoundEnd) -> Result<usize, SelectError>
    requires completed { IfCompleted (HasCompleted G.is_done (G.count (G.setup gate.old)) gate.old)
        round }
    ensures ends { EndsAfter G.withdraws (G.count (G.setup gate.old)) (G.start (G.setup gate.old))
        (G.count (G.setup gate.old)) round gate.old gate.new result }
    ensures completed { IfOk result (HasCompleted G.is_done (G.count (G.setup gate.old)) gate.new) }
    ensures timeout { result ≡ Err SelectError.Timeout → round ≡ RoundEnd.AllWait }
    ensures setup { G.setup gate.new ≡ G.setup gate.old }
{
    let all = gate.count();
    match round {
        RoundEnd::AllWait => {
            withdraw(gate, all, None);
            Err(SelectError::Timeout)
        }
        RoundEnd::Completed { arm, .. } => {
            withdraw(gate, all, Some(arm));
            Ok(arm)
        }
        RoundEnd::NoMemory { .. } => {
            withdraw(gate, all, None);
            Err(SelectError::NoMemory)
        }
    }
}

// Every arm has its turn, whichever was woken: another receiver may have taken the message.
fn round<G: SelectGate>(gate: &mut G, waiter: Option<&G::Waiter>) -> RoundEnd
    ensures round { IsRound (G.turns (is_some waiter.entry)) (G.count (G.setup gate.old))
        (G.start (G.setup gate.old)) gate.old gate.new result }
    ensures completed { IfCompleted (HasCompleted G.is_done (G.count (G.setup gate.old)) gate.new)
        result }
    ensures setup { G.setup gate.new ≡ G.setup gate.old }
{
    let count = gate.count();
    let mut arm = gate.start();
    for before in 0..count {
        match gate.turn(arm, waiter) {
            ArmNext::Waits => arm = next_arm(count, arm),
            ArmNext::Completed => return RoundEnd::Completed { before, arm },
            ArmNext::NoMemory => return RoundEnd::NoMemory { before },
        }
    }
    RoundEnd::AllWait
}

fn withdraw<G: SelectGate>(gate: &mut G, started: usize, spared: Option<usize>)
    ensures withdrawn { (next : ℕ) × Withdraws G.withdraws (G.count (G.setup gate.old))
        (G.start (G.setup gate.old)) spared gate.old started next gate.new }
    ensures spared { (arm : ℕ) → spared ≡ Some arm → G.is_done gate.old arm
        → G.is_done gate.new arm }
    ensures setup { G.setup gate.new ≡ G.setup gate.old }
{
    let count = gate.count();
    let mut arm = gate.start();
    for _ in 0..started {
        if !is_spared(spared, arm) {
            gate.withdraw(arm);
        }
        arm = next_arm(count, arm);
    }
}

fn is_spared(spared: Option<usize>, arm: usize) -> bool
    ensures spared { IsTrue result ↔ (spared ≡ Some arm) }
{
    spared == Some(arm)
}

fn next_arm(count: usize, arm: usize) -> usize
    requires within { arm < count }
    ensures next { result ≡ next_arm count arm }
    ensures within { result < count }
{
    if arm + 1 == count { 0 } else { arm + 1 }
}
