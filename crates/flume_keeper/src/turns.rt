//! Which turns and polls are a party's.
ghost use Rattle.flume_keeper.specs.Keeps.{MovesMessages, MovesNone};

use flume_calls::calls::{
    AgainReceive, AgainSend, FirstReceive, FirstReceiveMany, FirstSend, MoreReceives, ParkReceive,
    ParkSend, ReceiveAndMore, RecvNext, SendMany,
};
use flume_calls::polled::{Polled, PolledReceive, PolledSend};
use flume_calls::single::{CapacityQuery, CountQuery, DrainQueue, EndStep, FlagQuery, SetCapacity};
use flume_calls::turn::Turn;
use std::alloc::Allocator;

/// A turn whose steps send, receive or set the capacity. It is a party's.
pub trait MessageTurn<T, S, A: Allocator>: Turn<T, S, A> {
    ghost moves: { (turn : Self) → MovesMessages (Self.Turn.makes turn) };
}

/// A call whose polls send or receive. They are a party's.
pub trait MessagePoll<T, S, A: Allocator>: Polled<T, S, A> {
    ghost moves: { (old new : Self) → MovesMessages (Self.Polled.makes old new) };
}

/// A turn whose steps move no message. It is nobody's.
pub trait EndTurn<T, S, A: Allocator>: Turn<T, S, A> {
    ghost moves: { (turn : Self) → MovesNone (Self.Turn.makes turn) };
}

impl<T: Drop, S: Drop, A: Allocator + Copy> MessageTurn<T, S, A> for FirstSend<T> {
    ghost use Rattle.std.specs.Prelude.{true};
    ghost use Rattle.flume_keeper.specs.Moves.{step_moves};

    ghost moves = { λ turn. step_moves (λ i. true) };
}

impl<T: Drop, S: Drop, A: Allocator + Copy> MessageTurn<T, S, A> for ParkSend<T, S> {
    ghost use Rattle.std.specs.Prelude.{true};
    ghost use Rattle.flume_keeper.specs.Moves.{step_moves};

    ghost moves = { λ turn. step_moves (λ i. true) };
}

impl<T: Drop, S: Drop, A: Allocator + Copy> MessageTurn<T, S, A> for AgainSend<S> {
    ghost use Rattle.flume_keeper.specs.Moves.{step_moves, parked_send_moves};

    ghost moves = { λ turn. step_moves (parked_send_moves T turn.call turn.last) };
}

impl<T: Drop, S: Drop, A: Allocator + Copy> MessageTurn<T, S, A> for FirstReceive {
    ghost use Rattle.std.specs.Prelude.{true};
    ghost use Rattle.flume_keeper.specs.Moves.{step_moves};

    ghost moves = { λ turn. step_moves (λ i. true) };
}

impl<T: Drop, S: Drop, A: Allocator + Copy> MessageTurn<T, S, A> for ParkReceive<S> {
    ghost use Rattle.std.specs.Prelude.{true};
    ghost use Rattle.flume_keeper.specs.Moves.{step_moves};

    ghost moves = { λ turn. step_moves (λ i. true) };
}

impl<T: Drop, S: Drop, A: Allocator + Copy> MessageTurn<T, S, A> for AgainReceive<S> {
    ghost use Rattle.flume_keeper.specs.Moves.{step_moves, parked_receive_moves};

    ghost moves = { λ turn. step_moves (parked_receive_moves T turn.call turn.last) };
}

impl<T: Drop, S: Drop, A: Allocator + Copy> MessageTurn<T, S, A> for DrainQueue {
    ghost use Rattle.std.specs.Prelude.{true};
    ghost use Rattle.flume_keeper.specs.Moves.{step_moves};

    ghost moves = { λ turn. step_moves (λ i. true) };
}

impl<T: Drop, S: Drop, A: Allocator + Copy> MessageTurn<T, S, A> for SetCapacity {
    ghost use Rattle.std.specs.Prelude.{true};
    ghost use Rattle.flume_keeper.specs.Moves.{step_moves};

    ghost moves = { λ turn. step_moves (λ i. true) };
}

impl<T: Drop, S: Drop, A: Allocator + Copy> MessageTurn<T, S, A> for SendMany<T, A> {
    ghost use Rattle.flume_keeper.specs.ManyMoves.{sends_move};

    ghost moves = { λ turn made answer made_by. sends_move made_by };
}

impl<T: Drop, S: Drop, A: Allocator + Copy> MessageTurn<T, S, A> for FirstReceiveMany<T, A> {
    ghost use Rattle.flume_keeper.specs.ManyMoves.{first_many_moves};

    ghost moves = { λ turn made answer made_by. first_many_moves made_by };
}

impl<T: Drop, S: Drop, A: Allocator + Copy> MessageTurn<T, S, A> for MoreReceives<T, A> {
    ghost use Rattle.flume_keeper.specs.ManyMoves.{takes_move};

    ghost moves = { λ turn made answer made_by. takes_move made_by };
}

impl<T, S, A, C> MessageTurn<T, S, A> for ReceiveAndMore<C, T, A>
where
    T: Drop,
    S: Drop,
    A: Allocator + Copy,
    C: MessageTurn<T, S, A, Answer = RecvNext<T>>,
{
    ghost use Rattle.flume_keeper.specs.ManyMoves.{more_moves};

    ghost moves = { λ turn. more_moves (C.moves turn.turn) };
}

impl<T: Drop, S: Drop, A: Allocator + Copy> MessagePoll<T, S, A> for PolledSend<T> {
    ghost use Rattle.flume_keeper.specs.Moves.{send_poll_moves};

    ghost moves = { λ old new made answer made_by. send_poll_moves made_by };
}

impl<T: Drop, S: Drop, A: Allocator + Copy> MessagePoll<T, S, A> for PolledReceive {
    ghost use Rattle.flume_keeper.specs.Moves.{receive_poll_moves};

    ghost moves = { λ old new made answer made_by. receive_poll_moves made_by };
}

impl<T: Drop, S: Drop, A: Allocator + Copy> EndTurn<T, S, A> for EndStep {
    ghost use Rattle.flume_keeper.specs.Moves.{step_moves_none, end_step_moves_none};

    ghost moves = { λ turn. step_moves_none (end_step_moves_none T turn) };
}

impl<T: Drop, S: Drop, A: Allocator + Copy> EndTurn<T, S, A> for CountQuery {
    ghost use Rattle.flume_keeper.specs.Moves.{step_moves_none, count_query_moves_none};

    ghost moves = { λ turn. step_moves_none (count_query_moves_none T turn) };
}

impl<T: Drop, S: Drop, A: Allocator + Copy> EndTurn<T, S, A> for FlagQuery {
    ghost use Rattle.flume_keeper.specs.Moves.{step_moves_none, flag_query_moves_none};

    ghost moves = { λ turn. step_moves_none (flag_query_moves_none T turn) };
}

impl<T: Drop, S: Drop, A: Allocator + Copy> EndTurn<T, S, A> for CapacityQuery {
    ghost use Rattle.std.specs.Prelude.{false};
    ghost use Rattle.flume_keeper.specs.Moves.{step_moves_none};

    ghost moves = { λ turn. step_moves_none (λ i. false) };
}
