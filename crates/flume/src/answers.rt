//! What a call answers, by its turn or its wait.
ghost use Rattle.std.specs.Prelude.{◌≡◌, ◌≢◌, ◌∷◌, ◌<◌, vec_items, Err};
ghost use Rattle.std.specs.VecDeque.{deque_items, deque_len, deque_capacity};
ghost use Rattle.flume_calls.specs.ReceiveTurns as receive;
ghost use Rattle.flume.specs.CallSteps as answer;
ghost use Rattle.flume.specs.CallSteps.{NeverParks};
ghost use Rattle.flume.specs.ManySendSteps.{try_result_list, error_list};

use flume_calls::calls::{RecvNext, SendNext};
use flume_core::error::{
    RecvError, RecvTimeoutError, SendError, SendTimeoutError, TryRecvError, TrySendError,
};
use std::alloc::Allocator;
use std::collections::VecDeque;

#[inline(always)]
pub(crate) fn try_send_answer<T: Drop>(turn: SendNext<T>) -> Result<(), TrySendError<T>>
    requires never_parks { NeverParks turn }
    ensures turn { turn ≡ answer.try_send_as_turn result }
{
    match turn {
        SendNext::Done(Ok(())) => Ok(()),
        SendNext::Done(Err(SendTimeoutError::Disconnected(message))) => {
            Err(TrySendError::Disconnected(message))
        }
        SendNext::Done(Err(SendTimeoutError::NoMemory(message))) => {
            Err(TrySendError::NoMemory(message))
        }
        SendNext::NeedSignal(message) => Err(TrySendError::Full(message)),
        SendNext::Done(Err(SendTimeoutError::Timeout(_))) | SendNext::Park(_) => unreachable!(),
    }
}

pub(crate) fn try_send_many_answer<T: Drop, A: Allocator>(
    turn: Result<(), TrySendError<VecDeque<T, A>>>,
) -> Result<(), TrySendError<Vec<T, A>>>
    ensures list { try_result_list vec_items result ≡ try_result_list deque_items turn }
{
    match turn {
        Ok(()) => Ok(()),
        Err(TrySendError::Full(left)) => Err(TrySendError::Full(left.into_vec())),
        Err(TrySendError::Disconnected(left)) => Err(TrySendError::Disconnected(left.into_vec())),
        Err(TrySendError::NoMemory(left)) => Err(TrySendError::NoMemory(left.into_vec())),
    }
}

// The error of a send of many: the first of them comes back, in front of those behind it.
pub(crate) fn put_back<T: Drop, A: Allocator>(
    mut behind: VecDeque<T, A>,
    ended: SendTimeoutError<T>,
) -> SendTimeoutError<Vec<T, A>>
    requires room { deque_len behind < deque_capacity behind }
    ensures list { error_list vec_items result ≡ error_list (λ back. back ∷ behind.items) ended }
{
    match ended {
        SendTimeoutError::Timeout(back) => {
            behind.push_front_reserved(back);
            SendTimeoutError::Timeout(behind.into_vec())
        }
        SendTimeoutError::Disconnected(back) => {
            behind.push_front_reserved(back);
            SendTimeoutError::Disconnected(behind.into_vec())
        }
        SendTimeoutError::NoMemory(back) => {
            behind.push_front_reserved(back);
            SendTimeoutError::NoMemory(behind.into_vec())
        }
    }
}

#[inline(always)]
pub(crate) fn send_answer<T: Drop>(
    outcome: Result<(), SendTimeoutError<T>>,
) -> Result<(), SendError<T>>
    requires in_time { (back : T) → outcome ≢ Err (SendTimeoutError.Timeout back) }
    ensures outcome { outcome ≡ answer.send_as_timed result }
{
    match outcome {
        Ok(()) => Ok(()),
        Err(SendTimeoutError::NoMemory(message)) => Err(SendError::NoMemory(message)),
        Err(SendTimeoutError::Disconnected(message)) => Err(SendError::Disconnected(message)),
        Err(SendTimeoutError::Timeout(_)) => unreachable!(),
    }
}

#[inline(always)]
pub(crate) fn try_receive_answer<T: Drop>(turn: RecvNext<T>) -> Result<T, TryRecvError>
    requires first { receive.IsFirstAnswer turn }
    ensures turn { turn ≡ answer.try_receive_as_turn result }
{
    match turn {
        RecvNext::Done(Ok(came)) => Ok(came),
        RecvNext::Done(Err(RecvTimeoutError::Disconnected)) => Err(TryRecvError::Disconnected),
        RecvNext::Done(Err(RecvTimeoutError::NoMemory)) => Err(TryRecvError::NoMemory),
        RecvNext::NeedSignal => Err(TryRecvError::Empty),
        RecvNext::Done(Err(RecvTimeoutError::Timeout)) | RecvNext::Park(_) | RecvNext::Refused(_) =>
            unreachable!(),
    }
}

#[inline(always)]
pub(crate) fn receive_answer<T: Drop>(outcome: Result<T, RecvTimeoutError>) -> Result<T, RecvError>
    requires in_time { outcome ≢ Err RecvTimeoutError.Timeout }
    ensures outcome { outcome ≡ answer.receive_as_timed result }
{
    match outcome {
        Ok(message) => Ok(message),
        Err(RecvTimeoutError::NoMemory) => Err(RecvError::NoMemory),
        Err(RecvTimeoutError::Disconnected) => Err(RecvError::Disconnected),
        Err(RecvTimeoutError::Timeout) => unreachable!(),
    }
}
