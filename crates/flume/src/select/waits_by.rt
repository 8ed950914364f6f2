//! Selections by parties, which all come back.
ghost use Rattle.std.specs.Prelude.{◌≡◌, ◌≢◌, IfOk, IfSome, Err};
ghost use Rattle.flume_core.specs.declared.error.SelectError.{SelectError};
ghost use Rattle.flume.specs.declared.select.receive.ReceiveState.{ReceiveState};
ghost use Rattle.flume.specs.declared.select.send.SendState.{SendState};
ghost use Rattle.flume.specs.Selections.{IsValue};
ghost use Rattle.flume.specs.SelectionCalls.{Selects, Tries, wait_as_timed};
ghost use Rattle.flume.specs.SelectionParties.{HasSelected, HasTriedArms};
ghost use Rattle.flume_deadline.specs.declared.Deadline.{Deadline};
ghost use Rattle.flume_deadline.specs.declared.Deadline.TheVariants.{Never};
ghost use Rattle.flume_deadline.specs.Deadlines.{IsAfter};

use crate::select::Selector;
use crate::select::arms::{Arms, AtLeastOneArm};
use crate::select::parties::ArmsBy;
use crate::select::traced_recv_arm::TracedRecvArm;
use crate::select::traced_send_arm::TracedSendArm;
use crate::shared::Waits;
use crate::traced::{ChannelName, ChannelParty, TracedReceiver, TracedSender};
use flume_calls::gates::try_select_over;
use flume_core::error::{NoMemory, RecvError, SelectError, SendError};
use flume_deadline::Deadline;
use std::alloc::Allocator;
use std::time::{Duration, Instant};

impl<'a, V, L: Arms<V, A> + Drop, A: Allocator + Copy> Selector<'a, V, L, A> {
    /// Adds an arm as of `send`, of a sender with a trace. A wait that ends in `by` gives the party
    /// back; without it the party is lost.
    pub fn send_by<T: Drop, F, R: Waits, J: ChannelName>(
        self,
        sender: &'a TracedSender<T, R, J, A>,
        me: ChannelParty<T, J, A>,
        message: T,
        mapper: F,
    ) -> Selector<'a, V, (L, TracedSendArm<'a, T, F, R, J, A>), A>
    where
        F: FnOnce(Result<(), SendError<T>>) -> V + Drop,
        ensures before { result.arms.0 ≡ self.entry.arms }
        ensures channel { result.arms.1.channel ≡ sender.now }
        ensures unstarted { result.arms.1.state ≡ SendState.Unstarted message }
        ensures mapper { result.arms.1.mapper ≡ mapper }
        ensures message { result.arms.1.message ≡ message }
        ensures party { result.arms.1.party ≡ me }
        ensures began { result.arms.1.start ≡ me }
        ensures start { result.start ≡ self.entry.start }
    {
        self.with(TracedSendArm::new(sender, me, message, mapper))
    }

    /// Adds an arm as of `recv`, of a receiver with a trace; the party is as that of `send_by`.
    /// ```
    /// let channel = UnopenedChannel::unbounded(1);
    /// let (tx, rx, mut me) = flume::on(rt).traced::<u64, Brand>(channel)?;
    /// tx.send(&mut me, 7)?;
    /// let (_stop, stopped) = flume::on(rt).bounded::<u64>(1)?;
    /// let arms = Selector::new().recv(&stopped, Result::ok).recv_by(&rx, me, Result::ok);
    /// let (message, (_, mut me)) = arms.wait_by();
    /// assert_eq!(rt; message?, Some(7));
    /// assert_eq!(rt; rx.settle(&mut me), Some(0));
    /// ```
    pub fn recv_by<T: Drop, F, R: Waits, J: ChannelName>(
        self,
        receiver: &'a TracedReceiver<T, R, J, A>,
        me: ChannelParty<T, J, A>,
        mapper: F,
    ) -> Selector<'a, V, (L, TracedRecvArm<'a, T, F, R, J, A>), A>
    where
        F: FnOnce(Result<T, RecvError>) -> V + Drop,
        ensures before { result.arms.0 ≡ self.entry.arms }
        ensures channel { result.arms.1.channel ≡ receiver.now }
        ensures unstarted { result.arms.1.state ≡ ReceiveState.Unstarted }
        ensures mapper { result.arms.1.mapper ≡ mapper }
        ensures party { result.arms.1.party ≡ me }
        ensures began { result.arms.1.start ≡ me }
        ensures start { result.start ≡ self.entry.start }
    {
        self.with(TracedRecvArm::new(receiver, me, mapper))
    }
}

impl<'a, V, L, A: Allocator + Copy> Selector<'a, V, L, A>
where
    L: AtLeastOneArm<V, A> + ArmsBy<V, A> + Drop,
{
    /// As `wait`. Gives back the parties of all arms, as the arms are listed: `((), me)` of one arm
    /// that was added with the party `me`. An arm without a trace has the party `()`.
    pub fn wait_by(self) -> (Result<V, NoMemory>, L::Parties)
        requires can_map { L.can_map (L.mappers self.arms) }
        ensures value { IfOk result.0 (IsValue L.count L.maps (L.mappers self.entry.arms)) }
        ensures made { Selects L.turns L.withdraws L.answers (L.count (L.mappers self.entry.arms))
            self.entry.start Deadline.Never self.entry.arms (wait_as_timed result.0) }
        ensures called { L.all_idle self.entry.arms → HasSelected L.completes L.stand_by
            (L.mappers self.entry.arms) (wait_as_timed result.0) result.1 }
    {
        let (result, parties) = self.select_by(Deadline::Never);
        let result = match result {
            Ok(value) => Ok(value),
            Err(SelectError::NoMemory) => Err(NoMemory),
            Err(SelectError::Timeout) => unreachable!(),
        };
        (result, parties)
    }

    /// As `wait_deadline`, and gives back the parties as `wait_by` does.
    pub fn wait_deadline_by(self, deadline: Instant) -> (Result<V, SelectError>, L::Parties)
        requires can_map { L.can_map (L.mappers self.arms) }
        ensures value { IfOk result.0 (IsValue L.count L.maps (L.mappers self.entry.arms)) }
        ensures made { Selects L.turns L.withdraws L.answers (L.count (L.mappers self.entry.arms))
            self.entry.start (Deadline.At deadline) self.entry.arms result.0 }
        ensures called { L.all_idle self.entry.arms → HasSelected L.completes L.stand_by
            (L.mappers self.entry.arms) result.0 result.1 }
    {
        self.select_by(Deadline::At(deadline))
    }

    /// As `wait_timeout`, and gives back the parties as `wait_by` does.
    pub fn wait_timeout_by(self, timeout: Duration) -> (Result<V, SelectError>, L::Parties)
        requires can_map { L.can_map (L.mappers self.arms) }
        ensures value { IfOk result.0 (IsValue L.count L.maps (L.mappers self.entry.arms)) }
        ensures made { (deadline : Deadline) × IsAfter timeout deadline × Selects L.turns
            L.withdraws L.answers (L.count (L.mappers self.entry.arms)) self.entry.start deadline
            self.entry.arms result.0 }
        ensures called { L.all_idle self.entry.arms → HasSelected L.completes L.stand_by
            (L.mappers self.entry.arms) result.0 result.1 }
    {
        let deadline = Deadline::after(&self.arms.runtime(), timeout);
        self.select_by(deadline)
    }

    /// As `try_wait`, and gives back the parties as `wait_by` does.
    pub fn try_wait_by(mut self) -> (Result<Option<V>, NoMemory>, L::Parties)
        requires can_map { L.can_map (L.mappers self.arms) }
        ensures value { IfOk result.0 (λ value. IfSome value
            (IsValue L.count L.maps (L.mappers self.entry.arms))) }
        ensures made { Tries L.turns L.answers (L.count (L.mappers self.entry.arms))
            self.entry.start self.entry.arms result.0 }
        ensures called { L.all_idle self.entry.arms → HasTriedArms L.completes L.stand_by
            (L.mappers self.entry.arms) result.0 result.1 }
    {
        match try_select_over(&mut self) {
            Ok(Some(arm)) => {
                let (value, parties) = self.arms.value_by(arm);
                (Ok(value), parties)
            }
            Ok(None) => (Ok(None), self.arms.into_parties()),
            Err(NoMemory) => (Err(NoMemory), self.arms.into_parties()),
        }
    }

    fn select_by(mut self, deadline: Deadline) -> (Result<V, SelectError>, L::Parties)
        requires can_map { L.can_map (L.mappers self.arms) }
        ensures value { IfOk result.0 (IsValue L.count L.maps (L.mappers self.entry.arms)) }
        ensures made { Selects L.turns L.withdraws L.answers (L.count (L.mappers self.entry.arms))
            self.entry.start deadline self.entry.arms result.0 }
        ensures called { L.all_idle self.entry.arms → HasSelected L.completes L.stand_by
            (L.mappers self.entry.arms) result.0 result.1 }
        ensures in_time { deadline ≡ Never → result.0 ≢ Err SelectError.Timeout }
    {
        let arm = match self.race(deadline) {
            Ok(arm) => arm,
            Err(error) => return (Err(error), self.arms.into_parties()),
        };
        let (value, parties) = self.arms.value_by(arm);
        match value {
            Some(value) => (Ok(value), parties),
            None => unreachable!(),
        }
    }
}
