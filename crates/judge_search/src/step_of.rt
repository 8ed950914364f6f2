//! The moves of an open call.
ghost use Rattle.std.specs.Prelude.{◌≡◌};
ghost use Rattle.judge_search.specs.Moves.{first_move, parking_move, next_move, alternative_move};
ghost use Rattle.judge_search.specs.Moves.{move_of};
ghost use Rattle.judge_calls.specs.Calls.{is_send};

use crate::configuration::Progress;
use flume_model::step::Kind;
use judge_calls::call::Call;

/// A step of an open call, without its ticket and its message.
#[derive(Clone, Copy, Debug, PartialEq, Eq, Drop)]
pub enum Move {
    TrySend,
    Send,
    PollSend,
    WithdrawSend,
    TryRecv,
    Recv(Kind),
    Poll,
    Withdraw,
    Drain,
    CloneSender,
    CloneReceiver,
    DropSender,
    DropReceiver,
    SetCapacity(usize),
    Len,
    IsEmpty,
    IsFull,
    Capacity,
    SenderCount,
    ReceiverCount,
    IsDisconnected,
}

/// The move of a call with this progress: its next one, or the other one that it may make.
pub fn move_of<T>(call: &Call<T>, progress: Progress, other: bool) -> Option<Move>
    ensures moves { result ≡ move_of call.now progress other }
{
    if other {
        alternative_move(call, progress)
    } else {
        next_move(call, progress)
    }
}

fn next_move<T>(call: &Call<T>, progress: Progress) -> Option<Move>
    ensures moves { result ≡ next_move call.now progress }
{
    match progress {
        Progress::Begun => Some(first_move(call)),
        Progress::Tried => parking_move(call),
        Progress::Parked if is_send(call) => Some(Move::PollSend),
        Progress::Parked => Some(Move::Poll),
        Progress::Refused => Some(Move::Withdraw),
        Progress::Done => None,
    }
}

fn alternative_move<T>(call: &Call<T>, progress: Progress) -> Option<Move>
    ensures moves { result ≡ alternative_move call.now progress }
{
    match (call, progress) {
        (Call::SendAsync(_), Progress::Begun) => Some(Move::TrySend),
        (Call::RecvAsync, Progress::Begun | Progress::Tried) => Some(Move::TryRecv),
        (Call::SendTimeout(_) | Call::SendAsync(_), Progress::Parked) => Some(Move::WithdrawSend),
        (Call::RecvTimeout | Call::RecvAsync, Progress::Parked) => Some(Move::Withdraw),
        _ => None,
    }
}

fn first_move<T>(call: &Call<T>) -> Move
    ensures first { result ≡ first_move call.now }
{
    match call {
        Call::Send(_) | Call::SendTimeout(_) | Call::TrySend(_) => Move::TrySend,
        Call::SendAsync(_) => Move::Send,
        Call::Recv | Call::RecvTimeout | Call::TryRecv => Move::TryRecv,
        Call::RecvAsync => Move::Recv(Kind::Plain),
        Call::Drain => Move::Drain,
        Call::CloneSender => Move::CloneSender,
        Call::CloneReceiver => Move::CloneReceiver,
        Call::DropSender => Move::DropSender,
        Call::DropReceiver => Move::DropReceiver,
        Call::SetCapacity(capacity) => Move::SetCapacity(*capacity),
        Call::Len => Move::Len,
        Call::IsEmpty => Move::IsEmpty,
        Call::IsFull => Move::IsFull,
        Call::Capacity => Move::Capacity,
        Call::SenderCount => Move::SenderCount,
        Call::ReceiverCount => Move::ReceiverCount,
        Call::IsDisconnected => Move::IsDisconnected,
    }
}

fn parking_move<T>(call: &Call<T>) -> Option<Move>
    ensures parks { result ≡ parking_move call.now }
{
    match call {
        Call::Send(_) | Call::SendTimeout(_) => Some(Move::Send),
        Call::Recv | Call::RecvTimeout => Some(Move::Recv(Kind::Block)),
        Call::RecvAsync => Some(Move::Recv(Kind::Plain)),
        _ => None,
    }
}

fn is_send<T>(call: &Call<T>) -> bool
    ensures send { result ≡ is_send call.now }
{
    matches!(
        call,
        Call::Send(_) | Call::SendTimeout(_) | Call::SendAsync(_)
    )
}
