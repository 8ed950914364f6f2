//! Senders that don't keep their channel open.
ghost use Rattle.std.specs.Prelude.{◌≡◌, ◌≢◌, ◌↔◌, ℕ, IfOk, IfSome, IsErr, Ok, Some, None};
ghost use Rattle.flume.specs.CallSteps.{HasReplied, upgrade_reply};
ghost use Rattle.flume.specs.LockedTurns.{HasDescribed};

use crate::sender::Sender;
use crate::shared::{Shared, Waits};
use crate::signal::Signal;
use flume_calls::description::Description;
use flume_calls::single::EndStep;
use flume_core::error::NoMemory;
use flume_keeper::{Keeper, NoTrace};
use flume_model::step::{Reply, Step};
use std::alloc::{AllocError, Allocator, Global};
use std::fmt;
use std::marker::Model;
use std::sync::Arc;

/// A sender that doesn't keep its channel open. It keeps only the memory that the ends share.
#[derive(Drop)]
pub struct WeakSender<T, R, A = Global, K = NoTrace>
where
    R: Waits,
    A: Allocator + Copy,
    K: Keeper<T, A>,
{
    shared: Arc<Shared<T, R, A, K>, A>,
}

impl<T, R: Waits, A: Allocator + Copy, K: Keeper<T, A>> Model for WeakSender<T, R, A, K> {
    ghost Value = { ℕ };

    ghost view = { λ weak. weak.shared.value.id };
}

impl<T: Drop, R: Waits, A: Allocator + Copy, K: Keeper<T, A>> WeakSender<T, R, A, K> {
    pub(crate) fn from_shared(shared: Arc<Shared<T, R, A, K>, A>) -> Self
        ensures number { result ≡ shared.value.id }
    {
        WeakSender { shared }
    }

    /// A sender, while one lives, even if no receiver does. `NoMemory`: as of `Sender::downgrade`.
    /// ```
    /// let (tx, rx) = flume::on(rt).unbounded()?;
    /// let weak = tx.downgrade()?;
    /// if let Some(tx) = weak.upgrade()? {
    ///     tx.send(7)?;
    /// }
    /// assert_eq!(rt; rx.recv(), Ok(7));
    /// ```
    pub fn upgrade(&self) -> Result<Option<Sender<T, R, A, K>>, NoMemory>
        ensures same { IfOk result (λ sender. IfSome sender (λ s. s ≡ self.now)) }
        ensures made { IfOk result (λ sender.
            HasReplied {T = T} {A = A} Step.CloneSender (upgrade_reply sender)) }
    {
        let shared = Arc::try_clone(&self.shared)?;
        let reply = shared.end_step(EndStep::CloneSender);
        upgrade_answer(reply, shared)
    }

    /// As `Sender::describe`. So a thread can look at a channel, and keep no end of it.
    /// ```
    /// let (tx, rx) = flume::on(rt).unbounded::<u64>()?;
    /// let weak = tx.downgrade()?;
    /// assert_eq!(rt; weak.describe().sender_count, 1);
    /// drop(tx);
    /// assert_eq!(rt; weak.describe().sender_count, 0);
    /// assert_eq!(rt; rx.try_recv(), Err(TryRecvError::Disconnected));
    /// ```
    pub fn describe(&self) -> Description
        ensures described { HasDescribed T A result }
    {
        self.shared.describe()
    }
}

fn upgrade_answer<T: Drop, R: Waits, A: Allocator + Copy, K: Keeper<T, A>>(
    reply: Reply<T, A>,
    shared: Arc<Shared<T, R, A, K>, A>,
) -> Result<Option<Sender<T, R, A, K>>, NoMemory>
    ensures done { (reply ≡ Reply.Done) ↔ (result ≡ Ok (Some shared.value.id)) }
    ensures no_end { (reply ≡ Reply.NoEnd) ↔ (result ≡ Ok None) }
    ensures others { reply ≢ Reply.Done → reply ≢ Reply.NoEnd → IsErr result }
{
    match reply {
        Reply::Done => Ok(Some(Sender::from_shared(shared))),
        Reply::NoEnd => Ok(None),
        _ => Err(NoMemory),
    }
}

impl<T: Drop, R: Waits, A: Allocator + Copy, K: Keeper<T, A>> Clone for WeakSender<T, R, A, K> {
    ghost is_clone = { λ weak copy. copy ≡ weak };

    fn clone(&self) -> Result<Self, AllocError> {
        let shared = Arc::try_clone(&self.shared)?;
        Ok(WeakSender { shared })
    }
}

impl<T: Drop, R: Waits, A: Allocator + Copy, K: Keeper<T, A>> fmt::Debug
    for WeakSender<T, R, A, K> {
    fn fmt<W: fmt::Write>(&self, f: &mut fmt::Formatter<W>) -> fmt::Result {
        f.write_str("WeakSender")
    }
}
