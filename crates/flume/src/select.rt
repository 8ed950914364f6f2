//! Waiting for the first of several sends and receives.
ghost use Rattle.std.specs.Prelude.{◌≡◌, ◌≢◌, ◌<◌, ℕ, IfOk, IfSome, Err};
ghost use Rattle.flume_core.specs.declared.error.SelectError.{SelectError};
ghost use Rattle.flume.specs.declared.select.send.SendState.{SendState};
ghost use Rattle.flume.specs.declared.select.receive.ReceiveState.{ReceiveState};
ghost use Rattle.flume.specs.Selections.{IsValue, first_arm};
ghost use Rattle.flume.specs.GateSteps.{WaitsUpTo};
ghost use Rattle.flume.specs.SelectionCalls.{Races, Selects, Tries, wait_as_timed};
ghost use Rattle.flume_calls.specs.SelectGates.{HasCompleted};
ghost use Rattle.flume_deadline.specs.declared.Deadline.{Deadline};
ghost use Rattle.flume_deadline.specs.declared.Deadline.TheVariants.{Never};
ghost use Rattle.flume_deadline.specs.Deadlines.{IsAfter};

mod adding;
mod arms;
mod each;
mod error;
mod parties;
mod receive;
mod receive_list;
mod recv_arm;
mod send;
mod send_arm;
mod send_list;
mod traced_recv_arm;
mod traced_send_arm;
mod waits_by;

use crate::receiver::Receiver;
use crate::sender::Sender;
use crate::shared::Waits;
use crate::signal::Parker;
pub use arms::{Arm, ArmList, ArmTurns, Arms, ArmsOn, AtLeastOneArm};
pub use each::Each;
pub use error::EachError;
use flume_calls::gates::{ArmNext, SelectGate, select_over, try_select_over};
pub use flume_core::error::SelectError;
use flume_core::error::{NoMemory, RecvError, SendError};
use flume_deadline::Deadline;
pub use parties::{ArmBy, ArmsBy};
use rand::RngExt;
use rand::distr::uniform::SampleRange;
use rand_core::Rng;
pub use receive_list::ReceiveList;
pub use recv_arm::RecvArm;
pub use send_arm::SendArm;
pub use send_list::SendList;
use std::alloc::{Allocator, Global};
use std::fmt;
use std::marker::PhantomData;
use std::ops::Range;
use std::sync::Arc;
use std::time::{Duration, Instant};
pub use traced_recv_arm::TracedRecvArm;
pub use traced_send_arm::TracedSendArm;

/// Waits for the first of several sends and receives, its *arms*, on channels of any types. Each
/// arm has a *mapper* from its result to a `V`; only that of the arm that completes is called. The
/// type `L` lists the arms: a selector without arms has no method that waits.
/// ```
/// let (jobs, work) = flume::on(rt).unbounded::<u64>()?;
/// let (stop, stopped) = flume::on(rt).bounded::<()>(1)?;
/// jobs.send(7)?;
/// let job = Selector::new()
///     .recv(&work, |job| job.ok())
///     .recv(&stopped, |_| None)
///     .wait()?;
/// assert_eq!(rt; job, Some(7));
/// ```
#[derive(Drop)]
pub struct Selector<'a, V, L = (), A: Allocator + Copy = Global> {
    arms: L,
    start: usize,
    deadline: Deadline,
    value: PhantomData<&'a V>,
    alloc: PhantomData<A>,
}

impl<'a, V, A: Allocator + Copy> Selector<'a, V, (), A> {
    /// A selector without arms. Doesn't allocate.
    pub fn new() -> Self
        ensures start { result.start ≡ 0 }
    {
        Selector {
            arms: (),
            start: 0,
            deadline: Deadline::Never,
            value: PhantomData,
            alloc: PhantomData,
        }
    }
}

impl<'a, V, L: Arms<V, A> + Drop, A: Allocator + Copy> Selector<'a, V, L, A> {
    /// Adds an arm that sends the message. Its mapper gets `Ok` or `Disconnected`. If the arm isn't
    /// the one that completes, a message that wasn't taken in by then is dropped.
    pub fn send<T: Drop, F, R: Waits>(
        self,
        sender: &'a Sender<T, R, A>,
        message: T,
        mapper: F,
    ) -> Selector<'a, V, (L, SendArm<'a, T, F, R, A>), A>
    where
        F: FnOnce(Result<(), SendError<T>>) -> V + Drop,
        ensures before { result.arms.0 ≡ self.entry.arms }
        ensures channel { result.arms.1.arm.sender.now ≡ sender.now }
        ensures unstarted { result.arms.1.arm.state ≡ SendState.Unstarted message }
        ensures mapper { result.arms.1.mapper ≡ mapper }
        ensures start { result.start ≡ self.entry.start }
    {
        self.with(SendArm::new(sender, message, mapper))
    }

    /// Adds an arm that takes a message if it completes. Its mapper gets that, or `Disconnected`.
    pub fn recv<T: Drop, F, R: Waits>(
        self,
        receiver: &'a Receiver<T, R, A>,
        mapper: F,
    ) -> Selector<'a, V, (L, RecvArm<'a, T, F, R, A>), A>
    where
        F: FnOnce(Result<T, RecvError>) -> V + Drop,
        ensures before { result.arms.0 ≡ self.entry.arms }
        ensures channel { result.arms.1.arm.receiver.now ≡ receiver.now }
        ensures unstarted { result.arms.1.arm.state ≡ ReceiveState.Unstarted }
        ensures mapper { result.arms.1.mapper ≡ mapper }
        ensures start { result.start ≡ self.entry.start }
    {
        self.with(RecvArm::new(receiver, mapper))
    }

    fn with<C: Arm<V, A> + Drop>(self, arm: C) -> Selector<'a, V, (L, C), A>
        ensures arms { result.arms ≡ (self.entry.arms, arm) }
        ensures start { result.start ≡ self.entry.start }
    {
        Selector {
            arms: (self.arms, arm),
            start: self.start,
            deadline: self.deadline,
            value: PhantomData,
            alloc: PhantomData,
        }
    }
}

impl<'a, V, L: AtLeastOneArm<V, A> + Drop, A: Allocator + Copy> Selector<'a, V, L, A> {
    /// Begins with an arm drawn from those added so far, each as likely; without it arm 0 begins.
    pub fn with_rng<G: Rng>(self, rng: &mut G) -> Self
        ensures arms { result.arms ≡ self.entry.arms }
        ensures within { result.start < L.count (L.mappers result.arms) }
        ensures random { ⟦<Range<usize> as SampleRange<usize>>⟧.draws
            (record { start = 0; end = L.count (L.mappers self.entry.arms) })
            (G.stream rng.old) result.start (G.stream rng.new) }
    {
        let start = rng.random_range(0..self.arms.total());
        Selector { start, ..self }
    }

    /// Waits until an arm completes, and gives what its mapper makes of its result. The arms are
    /// tried in the order in which they were added, from the beginning arm on and then from arm 0.
    /// The others are withdrawn before the mapper is called. `NoMemory`: to wait, or in an arm.
    pub fn wait(self) -> Result<V, NoMemory>
        requires can_map { L.can_map (L.mappers self.arms) }
        ensures value { IfOk result (IsValue L.count L.maps (L.mappers self.entry.arms)) }
        ensures made { Selects L.turns L.withdraws L.answers (L.count (L.mappers self.entry.arms))
            self.entry.start Deadline.Never self.entry.arms (wait_as_timed result) }
    {
        match self.select(Deadline::Never) {
            Ok(value) => Ok(value),
            Err(SelectError::NoMemory) => Err(NoMemory),
            Err(SelectError::Timeout) => unreachable!(),
        }
    }

    /// As `wait`, up to the deadline. `Timeout`: it is reached, or the clock can't be read.
    pub fn wait_deadline(self, deadline: Instant) -> Result<V, SelectError>
        requires can_map { L.can_map (L.mappers self.arms) }
        ensures value { IfOk result (IsValue L.count L.maps (L.mappers self.entry.arms)) }
        ensures made { Selects L.turns L.withdraws L.answers (L.count (L.mappers self.entry.arms))
            self.entry.start (Deadline.At deadline) self.entry.arms result }
    {
        self.select(Deadline::At(deadline))
    }

    /// As `wait_deadline`, so long from now; as `wait`, if no time of the clock is that late.
    pub fn wait_timeout(self, timeout: Duration) -> Result<V, SelectError>
        requires can_map { L.can_map (L.mappers self.arms) }
        ensures value { IfOk result (IsValue L.count L.maps (L.mappers self.entry.arms)) }
        ensures made { (deadline : Deadline) × IsAfter timeout deadline × Selects L.turns
            L.withdraws L.answers (L.count (L.mappers self.entry.arms)) self.entry.start deadline
            self.entry.arms result }
    {
        let deadline = Deadline::after(&self.arms.runtime(), timeout);
        self.select(deadline)
    }

    /// Tries each arm once, in the order of `wait`. `None`: each would have to wait; a send doesn't
    /// meet a receive of its own selector. `NoMemory`: in an arm, and none behind it was tried.
    /// ```
    /// let (jobs, work) = flume::on(rt).unbounded::<u64>()?;
    /// let (_stop, stopped) = flume::on(rt).bounded::<u64>(1)?;
    /// let arms = Selector::new().recv(&stopped, Result::ok).recv(&work, Result::ok);
    /// assert_eq!(rt; arms.try_wait()?, None);
    /// jobs.send(7)?;
    /// let arms = Selector::new().recv(&stopped, Result::ok).recv(&work, Result::ok);
    /// assert_eq!(rt; arms.try_wait()?, Some(Some(7)));
    /// ```
    pub fn try_wait(mut self) -> Result<Option<V>, NoMemory>
        requires can_map { L.can_map (L.mappers self.arms) }
        ensures value { IfOk result (λ value. IfSome value
            (IsValue L.count L.maps (L.mappers self.entry.arms))) }
        ensures made { Tries L.turns L.answers (L.count (L.mappers self.entry.arms))
            self.entry.start self.entry.arms result }
    {
        match try_select_over(&mut self)? {
            Some(arm) => Ok(self.arms.value(arm)),
            None => Ok(None),
        }
    }

    fn select(mut self, deadline: Deadline) -> Result<V, SelectError>
        requires can_map { L.can_map (L.mappers self.arms) }
        ensures value { IfOk result (IsValue L.count L.maps (L.mappers self.entry.arms)) }
        ensures made { Selects L.turns L.withdraws L.answers (L.count (L.mappers self.entry.arms))
            self.entry.start deadline self.entry.arms result }
        ensures in_time { deadline ≡ Never → result ≢ Err SelectError.Timeout }
    {
        let arm = self.race(deadline)?;
        match self.arms.value(arm) {
            Some(value) => Ok(value),
            None => unreachable!(),
        }
    }

    // Tried before the parker is made: a selection that is ready at once makes none.
    #[inline(always)]
    fn race(&mut self, deadline: Deadline) -> Result<usize, SelectError>
        ensures run { Races L.turns L.withdraws (L.count (L.mappers self.old.arms)) self.old.start
            deadline self.old.arms self.new.arms result }
        ensures completed { IfOk result (HasCompleted L.has_completed
            (L.count (L.mappers self.old.arms)) self.new.arms) }
        ensures mappers { L.mappers self.new.arms ≡ L.mappers self.old.arms }
        ensures in_time { deadline ≡ Never → result ≢ Err SelectError.Timeout }
    {
        let rt = self.arms.runtime();
        self.deadline = deadline;
        match try_select_over(self) {
            Ok(Some(ready)) => Ok(ready),
            Ok(None) => select_over(&rt, self),
            Err(NoMemory) => Err(SelectError::NoMemory),
        }
    }
}

impl<'a, V, L: AtLeastOneArm<V, A>, A: Allocator + Copy> SelectGate for Selector<'a, V, L, A> {
    type Waiter = Arc<Parker, A>;

    type Setup = (L::Mappers, usize, Deadline);

    ghost setup = { λ selector.
        (L.mappers selector.arms, selector.start, selector.deadline) };

    ghost count = { λ setup. L.count setup.0 };

    ghost start = { λ setup. first_arm (L.count setup.0) setup.1 };

    ghost is_done = { λ selector. L.has_completed selector.arms };

    ghost makes = { λ old new _. new ≡ old };

    ghost turns = { λ parks old arm new next.
        L.turns parks old.arms arm new.arms next × (new.deadline ≡ old.deadline) };

    ghost waits = { λ old new expired.
        (new ≡ old) × WaitsUpTo old.deadline old.deadline expired };

    ghost withdraws = { λ old arm new. L.withdraws old.arms arm new.arms };

    fn count(&self) -> usize {
        self.arms.count()
    }

    fn start(&self) -> usize {
        if self.start < self.arms.total() {
            self.start
        } else {
            0
        }
    }

    // Made before an arm is started: if it fails, nothing is left in a channel.
    fn make_waiter(&mut self) -> Option<Arc<Parker, A>> {
        let parker = Parker::new(self.arms.checks());
        Arc::new(self.arms.alloc(), parker).ok()
    }

    fn turn(&mut self, arm: usize, parker: Option<&Arc<Parker, A>>) -> ArmNext {
        self.arms.turn(arm, parker)
    }

    fn wait(&mut self, parker: &Arc<Parker, A>) -> bool {
        parker.wait_up_to(&self.arms.runtime(), self.deadline)
    }

    fn withdraw(&mut self, arm: usize) {
        self.arms.withdraw(arm);
    }
}

impl<V, A: Allocator + Copy> Default for Selector<'_, V, (), A> {
    ghost is_default = { λ selector. selector.start ≡ 0 };

    fn default() -> Self {
        Selector::new()
    }
}

impl<V, L, A: Allocator + Copy> fmt::Debug for Selector<'_, V, L, A> {
    fn fmt<W: fmt::Write>(&self, f: &mut fmt::Formatter<W>) -> fmt::Result {
        f.write_str("Selector")
    }
}
