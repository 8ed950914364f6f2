//! The recorded answer for each result of a call.
ghost use Rattle.std.specs.Prelude.{◌≡◌};
ghost use Rattle.judge_recorder.specs.Answers as spec;

use flume::error::{
    CapacityError, RecvError, RecvTimeoutError, SendError, SendTimeoutError, TryRecvError,
    TrySendError,
};
use judge_calls::call::Answer;
use std::alloc::Allocator;

pub(crate) fn send_answer<T: Drop, A: Allocator>(outcome: &Result<(), SendError<T>>) -> Answer<T, A>
    ensures value { result ≡ spec.send_answer outcome.now }
{
    match outcome {
        Ok(()) => Answer::Sent,
        Err(SendError::Disconnected(_)) => Answer::Disconnected,
        Err(SendError::NoMemory(_)) => Answer::NoMemory,
    }
}

pub(crate) fn timed_send_answer<T: Drop, A: Allocator>(
    outcome: &Result<(), SendTimeoutError<T>>,
) -> Answer<T, A>
    ensures value { result ≡ spec.timed_send_answer outcome.now }
{
    match outcome {
        Ok(()) => Answer::Sent,
        Err(SendTimeoutError::Timeout(_)) => Answer::Timeout,
        Err(SendTimeoutError::Disconnected(_)) => Answer::Disconnected,
        Err(SendTimeoutError::NoMemory(_)) => Answer::NoMemory,
    }
}

pub(crate) fn try_send_answer<T: Drop, A: Allocator>(
    outcome: &Result<(), TrySendError<T>>,
) -> Answer<T, A>
    ensures value { result ≡ spec.try_send_answer outcome.now }
{
    match outcome {
        Ok(()) => Answer::Sent,
        Err(TrySendError::Full(_)) => Answer::Full,
        Err(TrySendError::Disconnected(_)) => Answer::Disconnected,
        Err(TrySendError::NoMemory(_)) => Answer::NoMemory,
    }
}

pub(crate) fn receive_answer<T: Copy, A: Allocator>(outcome: &Result<T, RecvError>) -> Answer<T, A>
    ensures value { result ≡ spec.receive_answer outcome.now }
{
    match outcome {
        Ok(message) => Answer::Got(*message),
        Err(RecvError::Disconnected) => Answer::Disconnected,
        Err(RecvError::NoMemory) => Answer::NoMemory,
    }
}

pub(crate) fn timed_receive_answer<T: Copy, A: Allocator>(
    outcome: &Result<T, RecvTimeoutError>,
) -> Answer<T, A>
    ensures value { result ≡ spec.timed_receive_answer outcome.now }
{
    match outcome {
        Ok(message) => Answer::Got(*message),
        Err(RecvTimeoutError::Timeout) => Answer::Timeout,
        Err(RecvTimeoutError::Disconnected) => Answer::Disconnected,
        Err(RecvTimeoutError::NoMemory) => Answer::NoMemory,
    }
}

pub(crate) fn try_receive_answer<T: Copy, A: Allocator>(
    outcome: &Result<T, TryRecvError>,
) -> Answer<T, A>
    ensures value { result ≡ spec.try_receive_answer outcome.now }
{
    match outcome {
        Ok(message) => Answer::Got(*message),
        Err(TryRecvError::Empty) => Answer::Empty,
        Err(TryRecvError::Disconnected) => Answer::Disconnected,
        Err(TryRecvError::NoMemory) => Answer::NoMemory,
    }
}

pub(crate) fn set_capacity_answer<T, A: Allocator>(
    outcome: &Result<(), CapacityError>,
) -> Answer<T, A>
    ensures value { result ≡ spec.set_capacity_answer outcome.now }
{
    match outcome {
        Ok(()) => Answer::Done,
        Err(CapacityError::Unbounded) => Answer::Unbounded,
        Err(CapacityError::Disconnected) => Answer::Disconnected,
    }
}
