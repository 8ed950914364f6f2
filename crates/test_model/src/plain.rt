//! Worked logs in which nobody blocks or parks, and near-misses of them.
ghost use Rattle.std.specs.Prelude.{[], ◌∷◌, Some, None};
ghost use Rattle.flume_model.specs.declared.step.Step.TheVariants.{TrySend, TryRecv, DropSender};
ghost use Rattle.flume_model.specs.declared.step.Step.TheVariants.{DropReceiver, Len};
ghost use Rattle.flume_model.specs.declared.step.Reply.TheVariants.{Sent, Full, Closed, NoMemory};
ghost use Rattle.flume_model.specs.declared.step.Reply.TheVariants.{Got, Empty, Ended, Done, NoEnd};
ghost use Rattle.flume_model.specs.declared.step.Reply.TheVariants.{Number};
ghost use Rattle.test_model.specs.Rows.{Runs, WrongAtEnd};

/// Worked rows are runs.
pub fn rows_are_runs()
    // One message through an unbounded channel.
    ensures one_message { Runs None ((TryRecv, Empty) ∷ (TrySend 42, Sent None) ∷ (TryRecv, Got 42)
        ∷ (TryRecv, Empty) ∷ []) }
    ensures filled { Runs (Some 2) ((TrySend 1, Sent None) ∷ (TrySend 2, Sent None)
        ∷ (TrySend 3, Full 3) ∷ (TryRecv, Got 1) ∷ (Len, Number 1) ∷ []) }
    ensures outlived { Runs None ((TrySend 1, Sent None) ∷ (DropSender, Done) ∷ (TryRecv, Got 1)
        ∷ (TryRecv, Ended) ∷ []) }
    ensures no_capacity { Runs (Some 0) ((Len, Number 0) ∷ (TrySend 1, Full 1) ∷ (TryRecv, Empty)
        ∷ []) }
    ensures both_gone { Runs None ((TrySend 1, Sent None) ∷ (DropReceiver, Done)
        ∷ (DropSender, Done) ∷ (Len, Number 0) ∷ (TryRecv, Ended) ∷ (DropReceiver, NoEnd) ∷ []) }
{}

/// Logs are runs but for their last reply.
pub fn near_misses_are_no_runs()
    ensures wrong_message { WrongAtEnd None ((TrySend 42, Sent None) ∷ (TryRecv, Got 43) ∷ []) }
    ensures newer_first { WrongAtEnd None ((TrySend 1, Sent None) ∷ (TrySend 2, Sent None)
        ∷ (TryRecv, Got 2) ∷ []) }
    ensures handed_out_twice { WrongAtEnd None ((TrySend 1, Sent None) ∷ (TryRecv, Got 1)
        ∷ (TryRecv, Got 1) ∷ []) }
    ensures empty_while_queued { WrongAtEnd None ((TrySend 42, Sent None) ∷ (TryRecv, Empty) ∷ []) }
    ensures ended_while_queued { WrongAtEnd None ((TrySend 42, Sent None) ∷ (DropSender, Done)
        ∷ (TryRecv, Ended) ∷ []) }
    ensures ended_while_open { WrongAtEnd None ((TryRecv, Ended) ∷ []) }
    ensures full_below_capacity { WrongAtEnd (Some 2) ((TrySend 1, Sent None) ∷ (TrySend 2, Full 2)
        ∷ []) }
    ensures sent_at_capacity { WrongAtEnd (Some 2) ((TrySend 1, Sent None) ∷ (TrySend 2, Sent None)
        ∷ (TrySend 3, Sent None) ∷ []) }
    ensures sent_while_closed { WrongAtEnd None ((DropReceiver, Done) ∷ (TrySend 1, Sent None)
        ∷ []) }
    ensures closed_while_open { WrongAtEnd None ((TrySend 1, Closed 1) ∷ []) }
    ensures another_returned { WrongAtEnd None ((DropReceiver, Done) ∷ (TrySend 1, Closed 2) ∷ []) }
    ensures done_at_zero { WrongAtEnd None ((DropReceiver, Done) ∷ (DropReceiver, Done) ∷ []) }
    ensures no_end_at_one { WrongAtEnd None ((DropSender, NoEnd) ∷ []) }
    ensures left_when_over { WrongAtEnd None ((TrySend 1, Sent None) ∷ (DropReceiver, Done)
        ∷ (DropSender, Done) ∷ (TryRecv, Got 1) ∷ []) }
    ensures one_off { WrongAtEnd None ((TrySend 1, Sent None) ∷ (Len, Number 2) ∷ []) }
    ensures refused_receive { WrongAtEnd None ((TrySend 1, Sent None) ∷ (TryRecv, NoMemory None)
        ∷ []) }
{}
