//! New channels.
ghost use Rattle.std.specs.Prelude.{◌≡◌, [], IfOk};
ghost use Rattle.flume_model.specs.Log.{opens};
ghost use Rattle.flume_state.specs.State.{State};
ghost use Rattle.flume_core.specs.Represents.{Represents};
ghost use Rattle.flume_keeper.specs.Keeps.{LogsOf};
ghost use Rattle.flume.specs.declared.signal.Signal.{Signal};

use crate::receiver::Receiver;
use crate::sender::Sender;
use crate::shared::{Shared, Waits};
use flume_core::error::NoMemory;
use flume_keeper::{Keeper, NoTrace};
use std::alloc::Allocator;
use std::sync::Arc;

/// As `flume::on(rt).allocator(alloc).number(id).unbounded()`.
/// ```
/// let (tx, rx) = unbounded(rt, rt.alloc(), 1)?;
/// tx.send(42)?;
/// assert_eq!(rt; rx.recv(), Ok(42));
/// ```
pub fn unbounded<T: Drop, R: Waits, A: Allocator + Copy>(
    rt: R,
    alloc: A,
    id: u64,
) -> Result<(Sender<T, R, A>, Receiver<T, R, A>), NoMemory>
    ensures sender { IfOk result (λ ends. ends.0 ≡ id) }
    ensures receiver { IfOk result (λ ends. ends.1 ≡ id) }
{
    ends(rt, alloc, id, None, NoTrace)
}

/// As `flume::on(rt).allocator(alloc).number(id).bounded(capacity)`.
/// ```
/// let (tx, rx) = bounded(rt, rt.alloc(), 2, 1)?;
/// assert_eq!(rt; tx.try_send(1), Ok(()));
/// assert_eq!(rt; tx.try_send(2), Err(TrySendError::Full(2)));
/// assert_eq!(rt; rx.recv(), Ok(1));
/// ```
pub fn bounded<T: Drop, R: Waits, A: Allocator + Copy>(
    rt: R,
    alloc: A,
    id: u64,
    capacity: usize,
) -> Result<(Sender<T, R, A>, Receiver<T, R, A>), NoMemory>
    ensures sender { IfOk result (λ ends. ends.0 ≡ id) }
    ensures receiver { IfOk result (λ ends. ends.1 ≡ id) }
{
    ends(rt, alloc, id, Some(capacity), NoTrace)
}

pub(crate) fn ends<T: Drop, R: Waits, A: Allocator + Copy, K: Keeper<T, A>>(
    rt: R,
    alloc: A,
    id: u64,
    capacity: Option<usize>,
    keeper: K,
) -> Result<(Sender<T, R, A, K>, Receiver<T, R, A, K>), NoMemory>
    requires starts { (s : State T (Signal A)) → Represents {A = A} (opens capacity 1) [] s
        → K.fits keeper (LogsOf s) }
    ensures sender { IfOk result (λ ends. ends.0 ≡ id) }
    ensures receiver { IfOk result (λ ends. ends.1 ≡ id) }
{
    let Ok(one) = Arc::new(alloc, Shared::new(rt, alloc, id, capacity, keeper)) else {
        return Err(NoMemory);
    };
    let other = Arc::try_clone(&one)?;
    Ok((Sender::from_shared(one), Receiver::from_shared(other)))
}
