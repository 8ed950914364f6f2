//! Worked logs of receivers that park, are woken, and leave, and near-misses of them.
ghost use Rattle.std.specs.Prelude.{◌≡◌, [], ◌∷◌, true, false, Some, None};
ghost use Rattle.flume_model.specs.declared.step.Kind.TheVariants.{Block, Plain, Stream, Arm};
ghost use Rattle.flume_model.specs.declared.step.Step.TheVariants.{TrySend, Send, PollSend};
ghost use Rattle.flume_model.specs.declared.step.Step.TheVariants.{WithdrawSend, TryRecv, Recv};
ghost use Rattle.flume_model.specs.declared.step.Step.TheVariants.{Poll, Withdraw, Drain};
ghost use Rattle.flume_model.specs.declared.step.Step.TheVariants.{DropSender, DropReceiver, Len};
ghost use Rattle.flume_model.specs.declared.step.Step.TheVariants.{IsFull};
ghost use Rattle.flume_model.specs.declared.step.Reply.TheVariants.{Sent, Full, NoMemory, Spent};
ghost use Rattle.flume_model.specs.declared.step.Reply.TheVariants.{Pending, Accepted, Waiting};
ghost use Rattle.flume_model.specs.declared.step.Reply.TheVariants.{Returned, NoTicket, Got, Empty};
ghost use Rattle.flume_model.specs.declared.step.Reply.TheVariants.{Ended, Parked, Gone, Drained};
ghost use Rattle.flume_model.specs.declared.step.Reply.TheVariants.{Done, Number, Flag};
ghost use Rattle.flume_model.specs.Log.{opens};
ghost use Rattle.flume_model.specs.WaitLaws.{MeetsBounds, FilledIfNamed};
ghost use Rattle.flume_model.specs.Limits.{most};
ghost use Rattle.test_model.specs.Rows.{Runs, as_log, WrongAtEnd, Numbers};
ghost use Rattle.test_model.specs.Rows.{RunsWithoutTickets, one_woken_of_two};
ghost use Rattle.test_model.specs.Rows.{plain_filled};
ghost use Rattle.test_model.specs.FillRows.{filled_with_front, wake_passed_on};

/// Worked rows of receivers that park, are woken, and leave are runs.
pub fn parked_rows_are_runs()
    ensures some_list { (list : Numbers) × (list.items ≡ 1 ∷ 2 ∷ []) }
    ensures drain_lets_blocked_in { (list : Numbers) → list.items ≡ 1 ∷ []
        → Runs (Some 1) ((TrySend 1, Sent None) ∷ (Send 2, Pending 1) ∷ (Drain, Drained list)
        ∷ (TrySend 3, Full 3) ∷ (TryRecv, Got 2) ∷ (PollSend 1, Accepted) ∷ []) }
    ensures drain_past_capacity { (list : Numbers) → list.items ≡ 1 ∷ 2 ∷ []
        → Runs (Some 1) ((Recv Plain, Parked 1) ∷ (Recv Plain, Parked 2) ∷ (Send 1, Sent None)
        ∷ (Send 2, Sent None) ∷ (Send 3, Pending 3) ∷ (Drain, Drained list) ∷ (Len, Number 1)
        ∷ (PollSend 3, Accepted) ∷ (Poll 1, Got 3) ∷ (Poll 2, Waiting) ∷ []) }
    ensures filled_with_front { Runs None filled_with_front }
    ensures queued_past_capacity { Runs (Some 0) ((Recv Plain, Parked 1) ∷ (Recv Arm, Parked 2)
        ∷ (TrySend 1, Sent None) ∷ (TrySend 2, Sent None) ∷ (TrySend 3, Full 3) ∷ (Len, Number 2)
        ∷ (IsFull, Flag true) ∷ (Poll 2, Got 1) ∷ (Poll 1, Got 2) ∷ []) }
    ensures streams_let_round_go_on { Runs None ((Recv Stream, Parked 1) ∷ (Recv Stream, Parked 2)
        ∷ (Recv Block, Parked 3) ∷ (Send 5, Sent (Some 3)) ∷ (Len, Number 0) ∷ (Poll 1, Waiting)
        ∷ (Poll 3, Got 5) ∷ []) }
    ensures leaves_with_none { Runs None ((Recv Stream, Parked 1) ∷ (Send 5, Sent None)
        ∷ (Send 6, Sent None) ∷ (Withdraw 1, Gone false None) ∷ (TryRecv, Got 5) ∷ (TryRecv, Got 6)
        ∷ (TryRecv, Empty) ∷ []) }
    ensures wake_passed_on { Runs None wake_passed_on }
    ensures closing_wakes_all { Runs None ((Recv Plain, Parked 1) ∷ (Recv Block, Parked 2)
        ∷ (Send 9, Sent None) ∷ (DropSender, Done) ∷ (Poll 2, Got 9) ∷ (Poll 1, Ended) ∷ []) }
    ensures leaves_with_front { Runs None ((Recv Plain, Parked 1) ∷ (Recv Block, Parked 2)
        ∷ (Send 5, Sent None) ∷ (Withdraw 2, Got 5) ∷ (Poll 1, Waiting) ∷ []) }
    ensures tickets_of_a_side { Runs (Some 0) ((Send 7, Pending 1) ∷ (Poll 1, NoTicket)
        ∷ (Withdraw 1, NoTicket) ∷ (PollSend 1, Waiting) ∷ (WithdrawSend 1, Returned 7 false)
        ∷ (PollSend 1, NoTicket) ∷ (PollSend 9, NoTicket) ∷ []) }
    ensures none_let_in_past_capacity { Runs (Some 1) ((Recv Plain, Parked 1)
        ∷ (Recv Plain, Parked 2) ∷ (Send 1, Sent None) ∷ (Send 2, Sent None) ∷ (Send 3, Pending 3)
        ∷ (TryRecv, Got 1) ∷ (PollSend 3, Waiting) ∷ (TryRecv, Got 2) ∷ (PollSend 3, Accepted)
        ∷ []) }
    ensures asks_unwoken { Runs None ((Recv Plain, Parked 1) ∷ (Recv Plain, Parked 2)
        ∷ (Send 5, Sent None) ∷ (Poll 2, Got 5) ∷ (Poll 1, Waiting) ∷ []) }
    ensures ended_once { Runs None ((Recv Stream, Parked 1) ∷ (DropSender, Done) ∷ (Poll 1, Ended)
        ∷ (Poll 1, NoTicket) ∷ []) }
    ensures gone_closed { Runs (Some 0) ((Recv Block, Parked 1) ∷ (DropReceiver, Done)
        ∷ (Withdraw 1, Gone true None) ∷ []) }
    ensures none_parked_when_over { Runs None ((Recv Plain, Parked 1) ∷ (DropSender, Done)
        ∷ (DropReceiver, Done) ∷ (Poll 1, NoTicket) ∷ []) }
    ensures waits_again_behind { Runs None ((Recv Plain, Parked 1) ∷ (Recv Block, Parked 2)
        ∷ (Poll 1, Waiting) ∷ (Send 5, Sent None) ∷ (TryRecv, Got 5) ∷ (Poll 1, Waiting)
        ∷ (Send 6, Sent (Some 2)) ∷ []) }
    ensures three_kinds { Runs (Some 1) ((Recv Stream, Parked 1) ∷ (Recv Plain, Parked 2)
        ∷ (Recv Block, Parked 3) ∷ (Send 1, Sent None) ∷ (Send 2, Sent (Some 3))
        ∷ (Send 3, Pending 4) ∷ (TrySend 4, Full 4) ∷ (Poll 2, Got 2)
        ∷ (Withdraw 1, Gone false None) ∷ (Poll 3, Got 1) ∷ (TryRecv, Got 3)
        ∷ (PollSend 4, Accepted) ∷ (Len, Number 0) ∷ []) }
    ensures tickets_spent { RunsWithoutTickets ((Send 7, Spent (Some 7)) ∷ (Recv Block, Spent None)
        ∷ (Len, Number 0) ∷ []) }
{}

/// Logs of receivers that park, ask and leave, and of drains, are runs but for their last reply.
pub fn parked_near_misses_are_no_runs()
    // A drain leaves the blocked sender behind, so that a later send, at capacity 1, overtakes it.
    ensures drain_lets_none_in { (list : Numbers) → list.items ≡ 1 ∷ []
        → WrongAtEnd (Some 1) ((TrySend 1, Sent None) ∷ (Send 2, Pending 1) ∷ (Drain, Drained list)
        ∷ (TrySend 3, Sent None) ∷ []) }
    ensures drained_another { (list : Numbers) → list.items ≡ 2 ∷ 1 ∷ []
        → WrongAtEnd None ((TrySend 1, Sent None) ∷ (TrySend 2, Sent None) ∷ (Drain, Drained list)
        ∷ []) }
    ensures refused_drain { WrongAtEnd None ((Drain, NoMemory None) ∷ []) }
    ensures filled_with_newest { WrongAtEnd None ((Recv Plain, Parked 1) ∷ (Recv Block, Parked 2)
        ∷ (Send 1, Sent None) ∷ (Send 2, Sent (Some 2)) ∷ (Poll 2, Got 2) ∷ []) }
    ensures wake_lost { WrongAtEnd None ((Recv Plain, Parked 1) ∷ (Recv Block, Parked 2)
        ∷ (Send 5, Sent None) ∷ (Withdraw 1, Gone false None) ∷ []) }
    ensures waiting_passes_on { WrongAtEnd None ((Recv Plain, Parked 1) ∷ (Recv Block, Parked 2)
        ∷ (Recv Plain, Parked 3) ∷ (TrySend 1, Sent None) ∷ (Withdraw 3, Gone false (Some 2))
        ∷ []) }
    ensures waits_while_queued { WrongAtEnd None ((Recv Plain, Parked 1) ∷ (Recv Plain, Parked 2)
        ∷ (Send 5, Sent None) ∷ (Poll 2, Waiting) ∷ []) }
    ensures unwoken_block_takes { WrongAtEnd None ((Recv Plain, Parked 1) ∷ (Recv Block, Parked 2)
        ∷ (Send 5, Sent None) ∷ (Poll 2, Got 5) ∷ []) }
    ensures ended_while_queued { WrongAtEnd None ((Recv Plain, Parked 1) ∷ (TrySend 1, Sent None)
        ∷ (DropSender, Done) ∷ (Poll 1, Ended) ∷ []) }
    ensures ended_while_open { WrongAtEnd None ((Recv Plain, Parked 1) ∷ (Poll 1, Ended) ∷ []) }
    ensures waits_while_closed { WrongAtEnd None ((Recv Stream, Parked 1) ∷ (DropSender, Done)
        ∷ (Poll 1, Waiting) ∷ []) }
    ensures ended_twice { WrongAtEnd None ((Recv Stream, Parked 1) ∷ (DropSender, Done)
        ∷ (Poll 1, Ended) ∷ (Poll 1, Ended) ∷ []) }
    ensures collected_twice { WrongAtEnd None ((Recv Block, Parked 1) ∷ (Send 5, Sent (Some 1))
        ∷ (Poll 1, Got 5) ∷ (Poll 1, Got 5) ∷ []) }
    ensures message_lost { WrongAtEnd None ((Recv Block, Parked 1) ∷ (Send 5, Sent (Some 1))
        ∷ (Withdraw 1, Gone false None) ∷ []) }
    ensures front_left { WrongAtEnd None ((Recv Plain, Parked 1) ∷ (Recv Block, Parked 2)
        ∷ (Send 5, Sent None) ∷ (Withdraw 2, Gone false None) ∷ []) }
    ensures front_taken_along { WrongAtEnd None ((Recv Stream, Parked 1) ∷ (Send 5, Sent None)
        ∷ (Withdraw 1, Got 5) ∷ []) }
    ensures gone_from_closed_as_open { WrongAtEnd (Some 0) ((Recv Block, Parked 1)
        ∷ (DropReceiver, Done) ∷ (Withdraw 1, Gone false None) ∷ []) }
    ensures parked_while_queued { WrongAtEnd None ((Send 5, Sent None) ∷ (Recv Block, Parked 1)
        ∷ []) }
    ensures parked_while_blocked { WrongAtEnd (Some 0) ((Send 5, Pending 1) ∷ (Recv Plain, Parked 2)
        ∷ []) }
    ensures parked_while_closed { WrongAtEnd None ((DropSender, Done) ∷ (Recv Plain, Parked 1)
        ∷ []) }
    ensures parked_under_one_ticket { WrongAtEnd None ((Recv Plain, Parked 1)
        ∷ (Recv Block, Parked 1) ∷ []) }
    ensures ticket_of_other_side { WrongAtEnd (Some 0) ((Send 7, Pending 1) ∷ (Poll 1, Waiting)
        ∷ []) }
    ensures parked_unknown { WrongAtEnd None ((Recv Arm, Parked 1) ∷ (Poll 1, NoTicket) ∷ []) }
    ensures parked_when_over { WrongAtEnd None ((Recv Plain, Parked 1) ∷ (DropSender, Done)
        ∷ (DropReceiver, Done) ∷ (Poll 1, Ended) ∷ []) }
    ensures let_in_past_capacity { WrongAtEnd (Some 1) ((Recv Plain, Parked 1)
        ∷ (Recv Plain, Parked 2) ∷ (Send 1, Sent None) ∷ (Send 2, Sent None) ∷ (Send 3, Pending 3)
        ∷ (TryRecv, Got 1) ∷ (Len, Number 2) ∷ []) }
    ensures greatest_ticket_parked { ¬ RunsWithoutTickets ((Recv Block, Parked most) ∷ []) }
{}

/// Logs of wake rounds are runs but for their last reply.
pub fn wake_near_misses_are_no_runs()
    ensures refused_send_wakes { WrongAtEnd (Some 0) ((Recv Plain, Parked 1)
        ∷ (Send 1, NoMemory (Some 1)) ∷ (TrySend 2, Full 2) ∷ []) }
    ensures refused_send_removes { WrongAtEnd (Some 0) ((Recv Plain, Parked 1)
        ∷ (Send 1, NoMemory (Some 1)) ∷ (Poll 1, NoTicket) ∷ []) }
    ensures full_while_waiting { WrongAtEnd (Some 0) ((Recv Plain, Parked 1) ∷ (TrySend 1, Full 1)
        ∷ []) }
    ensures send_wakes_none { WrongAtEnd (Some 0) ((Recv Plain, Parked 1) ∷ (TrySend 1, Sent None)
        ∷ (TrySend 2, Sent None) ∷ []) }
    ensures send_wakes_all { WrongAtEnd (Some 0) ((Recv Plain, Parked 1) ∷ (Recv Arm, Parked 2)
        ∷ (TrySend 1, Sent None) ∷ (TrySend 2, Full 2) ∷ []) }
    ensures goes_on_after_plain { WrongAtEnd None ((Recv Plain, Parked 1) ∷ (Recv Block, Parked 2)
        ∷ (Send 1, Sent (Some 2)) ∷ []) }
    ensures goes_on_after_arm { WrongAtEnd None ((Recv Arm, Parked 1) ∷ (Recv Block, Parked 2)
        ∷ (Send 1, Sent (Some 2)) ∷ []) }
    ensures goes_on_after_block { WrongAtEnd (Some 0) ((Recv Block, Parked 1)
        ∷ (Recv Plain, Parked 2) ∷ (TrySend 1, Sent (Some 1)) ∷ (TrySend 2, Full 2) ∷ []) }
    ensures ends_at_stream { WrongAtEnd None ((Recv Stream, Parked 1) ∷ (Recv Block, Parked 2)
        ∷ (Send 5, Sent None) ∷ []) }
    ensures ends_at_woken { WrongAtEnd None ((Recv Plain, Parked 1) ∷ (Recv Block, Parked 2)
        ∷ (Recv Block, Parked 3) ∷ (TrySend 1, Sent None) ∷ (TrySend 2, Sent (Some 2))
        ∷ (TrySend 3, Sent None) ∷ []) }
    ensures filled_again { WrongAtEnd None ((Recv Block, Parked 1) ∷ (Recv Block, Parked 2)
        ∷ (TrySend 1, Sent (Some 1)) ∷ (TrySend 2, Sent (Some 1)) ∷ []) }
    ensures one_fills_two { WrongAtEnd None ((Recv Block, Parked 1) ∷ (Recv Block, Parked 2)
        ∷ (TrySend 1, Sent (Some 1)) ∷ (TrySend 2, Sent None) ∷ []) }
    ensures one_collected_by_two { WrongAtEnd None ((Recv Block, Parked 1) ∷ (Recv Block, Parked 2)
        ∷ (TrySend 1, Sent (Some 1)) ∷ (Poll 1, Got 1) ∷ (Poll 2, Got 1) ∷ []) }
    ensures last_filled { WrongAtEnd None ((Recv Block, Parked 1) ∷ (Recv Block, Parked 2)
        ∷ (TrySend 1, Sent (Some 2)) ∷ []) }
    ensures plain_filled { WrongAtEnd None plain_filled }
    ensures filled_and_queued { WrongAtEnd None ((Recv Block, Parked 1) ∷ (Send 5, Sent (Some 1))
        ∷ (Len, Number 1) ∷ []) }
    ensures asking_loses_place { WrongAtEnd None ((Recv Plain, Parked 1) ∷ (Recv Block, Parked 2)
        ∷ (Poll 1, Waiting) ∷ (Send 5, Sent (Some 2)) ∷ []) }
    ensures again_before_others { WrongAtEnd None ((Recv Plain, Parked 1) ∷ (TrySend 1, Sent None)
        ∷ (TryRecv, Got 1) ∷ (Recv Block, Parked 2) ∷ (Poll 1, Waiting) ∷ (TrySend 2, Sent None)
        ∷ []) }
    // A wake is passed on for nothing, so that a send at capacity 0 finds none waiting.
    ensures passed_on_for_nothing { WrongAtEnd (Some 0) ((Recv Plain, Parked 1)
        ∷ (TrySend 1, Sent None) ∷ (TryRecv, Got 1) ∷ (Recv Plain, Parked 2)
        ∷ (Withdraw 1, Gone false None) ∷ (TrySend 2, Full 2) ∷ []) }
    ensures closing_wakes_first { WrongAtEnd None ((Recv Block, Parked 1) ∷ (Recv Block, Parked 2)
        ∷ (DropSender, Done) ∷ (Poll 2, Waiting) ∷ []) }
{}

/// After a worked row both bounds are met, so neither can be stricter.
pub fn bounds_are_met()
    ensures runs { Runs (Some 0) one_woken_of_two }
    ensures met { MeetsBounds (opens (Some 0) 1) (as_log [] one_woken_of_two) }
{}

/// After a near-miss that names a receiver that doesn't block as filled, none is filled.
pub fn a_plain_receiver_is_never_filled()
    ensures near_miss { ¬ FilledIfNamed (opens None 1) (as_log [] plain_filled) }
{}
