//! Receives of many messages.
ghost use Rattle.std.specs.Prelude.{◌≡◌, [], ◌+◌, ◌<◌, ◌≤◌, Ok, IfOk, IfErr, vec_len, vec_capacity};
ghost use Rattle.flume_model.specs.declared.step.Step.TheVariants.{TryRecv};
ghost use Rattle.flume_state.specs.State.{message_count};
ghost use Rattle.flume_calls.specs.ManyReceives.{Takes, TakesAll, AnswersMore, IsAtMost};
ghost use Rattle.flume_calls.specs.ManyReceives.{BatchTakes};
ghost use Rattle.flume_calls.specs.ManyReceives.{FirstManyTable, TurnAndMore, given_by, with_more};
ghost use Rattle.flume_calls.specs.ManyReceives.{FirstManyOutcome, MakesMore, makes_more};
ghost use Rattle.flume_calls.specs.ReceiveTurns as receive;
ghost use Rattle.flume_calls.specs.Batches.{IsBatch};

use super::receive::RecvNext;
use crate::turn::Turn;
use flume_core::chan::Chan;
use flume_core::error::RecvTimeoutError::{Disconnected, NoMemory};
use flume_model::step::Reply;
use std::alloc::Allocator;

/// What a receive of many messages leads to: `buffer`, with what it took behind what was there, and
/// `next`, as of a receive of one message, but `Done(Ok)` says how many came.
#[derive(Drop)]
pub struct ManyNext<T, A: Allocator> {
    pub buffer: Vec<T, A>,
    pub next: RecvNext<usize>,
}

/// Receives at most `most` messages. Doesn't park. `NoMemory`: `buffer` can't grow; none is taken.
#[derive(Drop)]
pub struct FirstReceiveMany<T, A: Allocator> {
    pub buffer: Vec<T, A>,
    pub most: usize,
}

impl<T: Drop, S: Drop, A: Allocator + Copy> Turn<T, S, A> for FirstReceiveMany<T, A> {
    type Answer = ManyNext<T, A>;

    ghost does = { λ turn old new answer. IsBatch {A = A} (λ made answer.
        FirstManyTable turn.buffer.items made answer.buffer.items answer.next) old new answer
        × FirstManyOutcome turn.buffer turn.most old new answer.next };

    ghost makes = { λ turn made answer.
        FirstManyTable turn.buffer.items made answer.buffer.items answer.next };

    ghost leads = { λ _ old new answer does. does.0 };

    ghost answers = { λ turn answer.
        receive.IsFirstAnswer answer.next × IsAtMost turn.most answer.next };

    fn apply(self, chan: &mut Chan<T, S, A>) -> ManyNext<T, A> {
        let FirstReceiveMany { mut buffer, most } = self;
        let count = chan.available(most);
        if count == 0 && most > 0 {
            let next = match chan.try_recv() {
                Reply::Empty => RecvNext::NeedSignal,
                Reply::Ended => RecvNext::Done(Err(Disconnected)),
                _ => unreachable!(),
            };
            return ManyNext { buffer, next };
        }
        if buffer.try_reserve(count).is_err() {
            let next = RecvNext::Done(Err(NoMemory));
            return ManyNext { buffer, next };
        }
        take_each(chan, &mut buffer, count);
        let next = RecvNext::Done(Ok(count));
        ManyNext { buffer, next }
    }
}

/// Takes and counts what is there, at most `most`; if `buffer` can't grow, what it has room for.
#[derive(Drop)]
pub struct MoreReceives<T, A: Allocator> {
    pub buffer: Vec<T, A>,
    pub most: usize,
}

impl<T: Drop, S: Drop, A: Allocator + Copy> Turn<T, S, A> for MoreReceives<T, A> {
    type Answer = (Vec<T, A>, usize);

    ghost does = { λ turn old new answer. IsBatch {A = A} (λ made answer.
        BatchTakes turn.buffer.items made answer.0.items answer.1) old new answer
        × TakesAll turn.most (message_count old) answer.1 answer.0 };

    ghost makes = { λ turn made answer.
        BatchTakes turn.buffer.items made answer.0.items answer.1 };

    ghost leads = { λ _ old new answer does. does.0 };

    ghost answers = { λ turn answer. (answer.1 ≤ turn.most)
        × (vec_len answer.0 ≡ vec_len turn.buffer + answer.1) };

    fn apply(self, chan: &mut Chan<T, S, A>) -> (Vec<T, A>, usize) {
        let MoreReceives { mut buffer, most } = self;
        let count = take_more(chan, &mut buffer, most);
        (buffer, count)
    }
}

/// A turn of a receive, and if it gave a message, then [`MoreReceives`] of at most `more`.
#[derive(Drop)]
pub struct ReceiveAndMore<C, T, A: Allocator> {
    pub turn: C,
    pub buffer: Vec<T, A>,
    pub more: usize,
    pub ghost room: { vec_len buffer < vec_capacity buffer },
}

impl<T, S, A, C> Turn<T, S, A> for ReceiveAndMore<C, T, A>
where
    T: Drop,
    S: Drop,
    A: Allocator + Copy,
    C: Turn<T, S, A, Answer = RecvNext<T>>,
{
    type Answer = ManyNext<T, A>;

    ghost does = { λ turn old new answer. TurnAndMore A (C.does turn.turn) turn.buffer turn.more
        old new answer.buffer answer.next };

    ghost makes = { λ turn. MakesMore (C.makes turn.turn) turn.buffer turn.more };

    ghost leads = { λ turn old new answer does.
        makes_more does (C.leads turn.turn old does.between does.first does.turn) };

    ghost answers = { λ turn answer. AnswersMore (C.answers turn.turn) turn.buffer
        turn.more answer.buffer answer.next };

    fn apply(self, chan: &mut Chan<T, S, A>) -> ManyNext<T, A> {
        let ReceiveAndMore {
            turn,
            mut buffer,
            more,
        } = self;
        match message_of(turn.apply(chan)) {
            Ok(message) => {
                buffer.push_reserved(message);
                let taken = take_more(chan, &mut buffer, more);
                let next = RecvNext::Done(Ok(taken + 1));
                ManyNext { buffer, next }
            }
            Err(next) => ManyNext { buffer, next },
        }
    }
}

fn message_of<T: Drop>(turn: RecvNext<T>) -> Result<T, RecvNext<usize>>
    ensures message { IfOk result (λ message. turn ≡ RecvNext.Done (Ok message)) }
    ensures none { IfErr result (λ next. (given_by turn ≡ []) × (next ≡ with_more 0 turn)) }
{
    match turn {
        RecvNext::Done(Ok(message)) => Ok(message),
        RecvNext::Done(Err(error)) => Err(RecvNext::Done(Err(error))),
        RecvNext::NeedSignal => Err(RecvNext::NeedSignal),
        RecvNext::Park(call) => Err(RecvNext::Park(call)),
        RecvNext::Refused(call) => Err(RecvNext::Refused(call)),
    }
}

fn take_more<T: Drop, S: Drop, A: Allocator + Copy>(
    chan: &mut Chan<T, S, A>,
    buffer: &mut Vec<T, A>,
    most: usize,
) -> usize
    ensures took { Takes A chan.old buffer.old.items result chan.new buffer.new.items }
    ensures all { TakesAll most (message_count chan.old) result buffer.new }
    ensures at_most { result ≤ most }
    ensures len { vec_len buffer.new ≡ vec_len buffer.old + result }
{
    let there = chan.available(most);
    let count = if buffer.try_reserve(there).is_ok() {
        there
    } else {
        buffer.capacity() - buffer.len()
    };
    take_each(chan, buffer, count);
    count
}

fn take_each<T: Drop, S: Drop, A: Allocator + Copy>(
    chan: &mut Chan<T, S, A>,
    buffer: &mut Vec<T, A>,
    count: usize,
)
    requires there { count ≤ message_count chan.old }
    requires room { vec_len buffer.old + count ≤ vec_capacity buffer.old }
    ensures took { Takes A chan.old buffer.old.items count chan.new buffer.new.items }
    ensures remaining { message_count chan.new + count ≡ message_count chan.old }
    ensures len { vec_len buffer.new ≡ vec_len buffer.old + count }
    ensures capacity { vec_capacity buffer.new ≡ vec_capacity buffer.old }
{
    for _taken in 0..count {
        match chan.try_recv() {
            Reply::Got(message) => buffer.push_reserved(message),
            _ => unreachable!(),
        }
    }
}
