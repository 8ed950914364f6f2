//! A selector's last arm and its wait, proved once for whatever arms come before: a wait over known
//! arms costs the prover a minute and more, and each arm doubles it.
use flume::error::{NoMemory, RecvError, SelectError, SendError};
use flume::select::{Arms, AtLeastOneArm};
use flume::{Receiver, Selector, Sender, Waits};
use std::alloc::Allocator;
use std::time::{Duration, Instant};

/// How long a selection waits.
#[derive(Clone, Copy)]
pub enum HowLong {
    Endless,
    Timeout(Duration),
    Deadline(Instant),
    // Not at all: each arm is only tried, and if none can go on, the selection is late.
    Tried,
}

fn without_end<V>(answer: Result<V, NoMemory>) -> Result<V, SelectError> {
    match answer {
        Ok(value) => Ok(value),
        Err(NoMemory) => Err(SelectError::NoMemory),
    }
}

fn or_late<V>(answer: Result<Option<V>, NoMemory>) -> Result<V, SelectError> {
    match answer {
        Ok(Some(value)) => Ok(value),
        Ok(None) => Err(SelectError::Timeout),
        Err(NoMemory) => Err(SelectError::NoMemory),
    }
}

/// Waits for the arms.
pub fn wait<V, L: AtLeastOneArm<V, A> + Drop, A: Allocator + Copy>(
    selector: Selector<'_, V, L, A>,
    how: HowLong,
) -> Result<V, SelectError>
    requires can_map { L.can_map (L.mappers selector.arms) }
{
    match how {
        HowLong::Endless => without_end(selector.wait()),
        HowLong::Timeout(timeout) => selector.wait_timeout(timeout),
        HowLong::Deadline(deadline) => selector.wait_deadline(deadline),
        HowLong::Tried => or_late(selector.try_wait()),
    }
}

/// Receives by the last arm.
pub fn last_recv<'a, V, L, T, F, R, A>(
    selector: Selector<'a, V, L, A>,
    rx: &'a Receiver<T, R, A>,
    received: F,
    how: HowLong,
) -> Result<V, SelectError>
where
    L: Arms<V, A> + Drop,
    T: Drop,
    F: FnOnce(Result<T, RecvError>) -> V + Drop,
    R: Waits,
    A: Allocator + Copy,
    requires can_map { L.can_map (L.mappers selector.arms) }
    requires received { F.IsAlwaysCallable received }
{
    wait(selector.recv(rx, received), how)
}

/// Sends by the last arm.
pub fn last_send<'a, V, L, T, F, R, A>(
    selector: Selector<'a, V, L, A>,
    tx: &'a Sender<T, R, A>,
    message: T,
    sent: F,
    how: HowLong,
) -> Result<V, SelectError>
where
    L: Arms<V, A> + Drop,
    T: Drop,
    F: FnOnce(Result<(), SendError<T>>) -> V + Drop,
    R: Waits,
    A: Allocator + Copy,
    requires can_map { L.can_map (L.mappers selector.arms) }
    requires sent { F.IsAlwaysCallable sent }
{
    wait(selector.send(tx, message, sent), how)
}
