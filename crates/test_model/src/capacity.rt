//! Worked logs in which the capacity is set, and near-misses of them.
ghost use Rattle.std.specs.Prelude.{[], ◌∷◌, true, false, Some, None};
ghost use Rattle.flume_model.specs.declared.step.Kind.TheVariants.{Block, Plain};
ghost use Rattle.flume_model.specs.declared.step.Step.TheVariants.{TrySend, Send, PollSend};
ghost use Rattle.flume_model.specs.declared.step.Step.TheVariants.{TryRecv, Recv, Poll};
ghost use Rattle.flume_model.specs.declared.step.Step.TheVariants.{DropReceiver, SetCapacity, Len};
ghost use Rattle.flume_model.specs.declared.step.Step.TheVariants.{IsFull, Capacity};
ghost use Rattle.flume_model.specs.declared.step.Reply.TheVariants.{Sent, Full, Pending, Accepted};
ghost use Rattle.flume_model.specs.declared.step.Reply.TheVariants.{Waiting, Returned, Got, Ended};
ghost use Rattle.flume_model.specs.declared.step.Reply.TheVariants.{Parked, Done, Number, Flag};
ghost use Rattle.flume_model.specs.declared.step.Reply.TheVariants.{Unbounded, Capacity as Bound};
ghost use Rattle.test_model.specs.Rows.{Runs, WrongAtEnd};

/// Worked rows in which the capacity is set are runs.
pub fn capacity_rows_are_runs()
    ensures raised_then_lowered { Runs (Some 1) ((Send 1, Sent None) ∷ (Send 2, Pending 1)
        ∷ (Send 3, Pending 2) ∷ (SetCapacity 2, Done) ∷ (Len, Number 2) ∷ (PollSend 1, Accepted)
        ∷ (PollSend 2, Waiting) ∷ (SetCapacity 0, Done) ∷ (TryRecv, Got 1) ∷ (Len, Number 1) ∷ []) }
    ensures none_to_set { Runs None ((SetCapacity 3, Unbounded) ∷ (Capacity, Bound None)
        ∷ (DropReceiver, Done) ∷ (SetCapacity 3, Unbounded) ∷ []) }
    ensures closed_keeps_capacity { Runs (Some 1) ((Send 1, Sent None) ∷ (Send 2, Pending 1)
        ∷ (DropReceiver, Done) ∷ (SetCapacity 5, Ended) ∷ (PollSend 1, Returned 2 true)
        ∷ (Capacity, Bound (Some 1)) ∷ []) }
    ensures full_past_lowered { Runs (Some 3) ((Send 1, Sent None) ∷ (Send 2, Sent None)
        ∷ (Send 3, Sent None) ∷ (SetCapacity 1, Done) ∷ (IsFull, Flag true) ∷ (TryRecv, Got 1)
        ∷ (TrySend 4, Full 4) ∷ (Send 5, Pending 1) ∷ (TryRecv, Got 2) ∷ (TryRecv, Got 3)
        ∷ (PollSend 1, Accepted) ∷ (Len, Number 1) ∷ []) }
    ensures receivers_stay { Runs (Some 0) ((Recv Plain, Parked 1) ∷ (Recv Block, Parked 2)
        ∷ (TrySend 1, Sent None) ∷ (SetCapacity 5, Done) ∷ (Poll 2, Waiting) ∷ (SetCapacity 0, Done)
        ∷ (TrySend 2, Sent (Some 2)) ∷ (Poll 2, Got 1) ∷ (Poll 1, Got 2) ∷ []) }
    ensures set_as_it_was { Runs (Some 1) ((Send 1, Sent None) ∷ (Send 2, Pending 1)
        ∷ (SetCapacity 1, Done) ∷ (Len, Number 1) ∷ (PollSend 1, Waiting) ∷ []) }
{}

/// Logs in which the capacity is set are runs but for their last reply.
pub fn capacity_near_misses_are_no_runs()
    ensures raised_lets_none_in { WrongAtEnd (Some 1) ((Send 1, Sent None) ∷ (Send 2, Pending 1)
        ∷ (SetCapacity 2, Done) ∷ (PollSend 1, Waiting) ∷ []) }
    ensures raised_lets_two_in { WrongAtEnd (Some 1) ((Send 1, Sent None) ∷ (Send 2, Pending 1)
        ∷ (Send 3, Pending 2) ∷ (SetCapacity 2, Done) ∷ (PollSend 2, Accepted) ∷ []) }
    ensures raised_lets_one_in { WrongAtEnd (Some 0) ((Send 1, Pending 1) ∷ (Send 2, Pending 2)
        ∷ (SetCapacity 2, Done) ∷ (Len, Number 1) ∷ []) }
    ensures raised_lets_later_in { WrongAtEnd (Some 0) ((Send 1, Pending 1) ∷ (Send 2, Pending 2)
        ∷ (SetCapacity 1, Done) ∷ (TryRecv, Got 2) ∷ []) }
    ensures raised_counts_twice { WrongAtEnd (Some 0) ((Send 1, Pending 1) ∷ (SetCapacity 5, Done)
        ∷ (TryRecv, Got 1) ∷ (TryRecv, Got 1) ∷ []) }
    ensures lowered_drops { WrongAtEnd (Some 2) ((Send 1, Sent None) ∷ (Send 2, Sent None)
        ∷ (SetCapacity 1, Done) ∷ (Len, Number 1) ∷ []) }
    ensures lowered_returns { WrongAtEnd (Some 1) ((Send 1, Sent None) ∷ (Send 2, Pending 1)
        ∷ (SetCapacity 0, Done) ∷ (PollSend 1, Returned 2 false) ∷ []) }
    ensures lowered_leaves_room { WrongAtEnd (Some 2) ((TrySend 1, Sent None)
        ∷ (SetCapacity 1, Done) ∷ (TrySend 2, Sent None) ∷ []) }
    ensures raised_makes_no_room { WrongAtEnd (Some 1) ((TrySend 1, Sent None)
        ∷ (SetCapacity 2, Done) ∷ (TrySend 2, Full 2) ∷ []) }
    ensures not_resized { WrongAtEnd (Some 1) ((SetCapacity 2, Done) ∷ (Capacity, Bound (Some 1))
        ∷ []) }
    ensures set_wakes { WrongAtEnd (Some 1) ((Recv Plain, Parked 1) ∷ (SetCapacity 0, Done)
        ∷ (TrySend 1, Full 1) ∷ []) }
    ensures set_fills { WrongAtEnd (Some 1) ((Recv Plain, Parked 1) ∷ (Recv Block, Parked 2)
        ∷ (TrySend 1, Sent None) ∷ (SetCapacity 5, Done) ∷ (Poll 2, Got 1) ∷ []) }
    ensures done_while_closed { WrongAtEnd (Some 1) ((DropReceiver, Done) ∷ (SetCapacity 5, Done)
        ∷ []) }
    ensures ended_while_unbounded { WrongAtEnd None ((DropReceiver, Done) ∷ (SetCapacity 5, Ended)
        ∷ []) }
    ensures set_ended_while_open { WrongAtEnd (Some 1) ((SetCapacity 5, Ended) ∷ []) }
    ensures done_while_unbounded { WrongAtEnd None ((SetCapacity 5, Done) ∷ []) }
    ensures unbounded_while_bounded { WrongAtEnd (Some 1) ((SetCapacity 5, Unbounded) ∷ []) }
    ensures set_though_ended { WrongAtEnd (Some 1) ((DropReceiver, Done) ∷ (SetCapacity 5, Ended)
        ∷ (Capacity, Bound (Some 5)) ∷ []) }
{}
