//! Worked logs of blocked sends, of ends and of queries, and near-misses of them.
ghost use Rattle.std.specs.Prelude.{[], ◌∷◌, true, false, Some, None};
ghost use Rattle.flume_model.specs.declared.step.Step.TheVariants.{TrySend, Send, PollSend};
ghost use Rattle.flume_model.specs.declared.step.Step.TheVariants.{WithdrawSend, TryRecv};
ghost use Rattle.flume_model.specs.declared.step.Step.TheVariants.{CloneSender, CloneReceiver};
ghost use Rattle.flume_model.specs.declared.step.Step.TheVariants.{DropSender, DropReceiver, Len};
ghost use Rattle.flume_model.specs.declared.step.Step.TheVariants.{IsEmpty, IsFull, Capacity};
ghost use Rattle.flume_model.specs.declared.step.Step.TheVariants.{SenderCount, ReceiverCount};
ghost use Rattle.flume_model.specs.declared.step.Step.TheVariants.{IsDisconnected};
ghost use Rattle.flume_model.specs.declared.step.Reply.TheVariants.{Sent, Full, Closed, Spent};
ghost use Rattle.flume_model.specs.declared.step.Reply.TheVariants.{Pending, Accepted, Waiting};
ghost use Rattle.flume_model.specs.declared.step.Reply.TheVariants.{Returned, NoTicket, Got, Empty};
ghost use Rattle.flume_model.specs.declared.step.Reply.TheVariants.{Ended, Done, NoEnd, CountFull};
ghost use Rattle.flume_model.specs.declared.step.Reply.TheVariants.{Number, Flag};
ghost use Rattle.flume_model.specs.declared.step.Reply.TheVariants.{Capacity as Bound};
ghost use Rattle.test_model.specs.Rows.{Runs, WrongAtEnd};

/// Worked rows of blocked sends, of ends and of queries are runs.
pub fn blocked_rows_are_runs()
    ensures taken_in_when_asked { Runs (Some 0) ((TrySend 7, Full 7) ∷ (Send 7, Pending 1)
        ∷ (Len, Number 0) ∷ (TryRecv, Got 7) ∷ (PollSend 1, Accepted) ∷ (PollSend 1, NoTicket)
        ∷ []) }
    ensures blocked_comes_back { Runs (Some 1) ((Send 1, Sent None) ∷ (Send 2, Pending 1)
        ∷ (DropReceiver, Done) ∷ (PollSend 1, Returned 2 true) ∷ (Len, Number 1)
        ∷ (TrySend 3, Closed 3) ∷ (IsDisconnected, Flag true) ∷ []) }
    ensures withdrawn_from_middle { Runs (Some 1) ((Send 1, Sent None) ∷ (Send 2, Pending 1)
        ∷ (Send 3, Pending 2) ∷ (Send 4, Pending 3) ∷ (WithdrawSend 2, Returned 3 false)
        ∷ (TryRecv, Got 1) ∷ (TryRecv, Got 2) ∷ (TryRecv, Got 4) ∷ (TryRecv, Empty)
        ∷ (PollSend 1, Accepted) ∷ (PollSend 3, Accepted) ∷ []) }
    ensures withdrawn_too_late { Runs (Some 1) ((Send 1, Sent None) ∷ (Send 2, Pending 1)
        ∷ (TryRecv, Got 1) ∷ (WithdrawSend 1, Accepted) ∷ []) }
    ensures blocked_outlived { Runs (Some 0) ((Send 7, Pending 1) ∷ (DropSender, Done)
        ∷ (TryRecv, Got 7) ∷ (PollSend 1, Accepted) ∷ (TryRecv, Ended) ∷ []) }
    ensures senders_still_come { Runs None ((DropReceiver, Done) ∷ (CloneSender, Done)
        ∷ (SenderCount, Number 2) ∷ (IsDisconnected, Flag true) ∷ (CloneReceiver, NoEnd) ∷ []) }
    ensures tickets_all_spent { Runs (Some 1) ((Send 1, Sent None) ∷ (Send 2, Pending 1)
        ∷ (DropReceiver, Done) ∷ (DropSender, Done) ∷ (PollSend 1, NoTicket) ∷ []) }
    ensures asked_how_it_stands { Runs (Some 2) ((TrySend 1, Sent None) ∷ (TrySend 2, Sent None)
        ∷ (IsFull, Flag true) ∷ (TryRecv, Got 1) ∷ (IsFull, Flag false) ∷ (IsEmpty, Flag false)
        ∷ (Capacity, Bound (Some 2)) ∷ (DropSender, Done) ∷ (IsDisconnected, Flag true) ∷ []) }
{}

/// Logs of blocked sends, of ends and of queries are runs but for their last reply.
pub fn blocked_near_misses_are_no_runs()
    ensures returned_after_accepted { WrongAtEnd (Some 1) ((Send 1, Sent None) ∷ (Send 2, Pending 1)
        ∷ (TryRecv, Got 1) ∷ (WithdrawSend 1, Returned 2 false) ∷ []) }
    ensures accepted_while_blocked { WrongAtEnd (Some 1) ((Send 1, Sent None) ∷ (Send 2, Pending 1)
        ∷ (PollSend 1, Accepted) ∷ []) }
    ensures accepted_twice { WrongAtEnd (Some 0) ((Send 1, Pending 1) ∷ (TryRecv, Got 1)
        ∷ (PollSend 1, Accepted) ∷ (PollSend 1, Accepted) ∷ []) }
    ensures waiting_while_closed { WrongAtEnd (Some 1) ((Send 1, Sent None) ∷ (Send 2, Pending 1)
        ∷ (DropReceiver, Done) ∷ (PollSend 1, Waiting) ∷ []) }
    ensures returned_while_open { WrongAtEnd (Some 0) ((Send 1, Pending 1)
        ∷ (PollSend 1, Returned 1 false) ∷ []) }
    ensures another_withdrawn { WrongAtEnd (Some 0) ((Send 1, Pending 1) ∷ (Send 2, Pending 2)
        ∷ (WithdrawSend 1, Returned 2 false) ∷ []) }
    ensures waiting_when_closed { WrongAtEnd (Some 0) ((Send 1, Pending 1) ∷ (DropReceiver, Done)
        ∷ (WithdrawSend 1, Returned 1 false) ∷ []) }
    ensures ticket_issued_twice { WrongAtEnd (Some 0) ((Send 1, Pending 1) ∷ (Send 2, Pending 1)
        ∷ []) }
    ensures ticket_issued_again { WrongAtEnd (Some 0) ((Send 1, Pending 1)
        ∷ (WithdrawSend 1, Returned 1 false) ∷ (Send 2, Pending 1) ∷ []) }
    ensures no_ticket_while_live { WrongAtEnd (Some 0) ((Send 1, Pending 1) ∷ (PollSend 1, NoTicket)
        ∷ []) }
    ensures waiting_without_ticket { WrongAtEnd (Some 0) ((Send 1, Pending 1)
        ∷ (PollSend 2, Waiting) ∷ []) }
    ensures ticket_outlives_both { WrongAtEnd (Some 0) ((Send 1, Pending 1) ∷ (DropReceiver, Done)
        ∷ (DropSender, Done) ∷ (PollSend 1, Returned 1 true) ∷ []) }
    ensures blocked_below_capacity { WrongAtEnd (Some 1) ((Send 1, Sent None) ∷ (Send 2, Pending 1)
        ∷ (TryRecv, Got 1) ∷ (PollSend 1, Waiting) ∷ []) }
    ensures none_moved_in { WrongAtEnd (Some 1) ((Send 1, Sent None) ∷ (Send 2, Pending 1)
        ∷ (TryRecv, Got 1) ∷ (Len, Number 0) ∷ []) }
    ensures two_moved_in { WrongAtEnd (Some 1) ((Send 1, Sent None) ∷ (Send 2, Pending 1)
        ∷ (Send 3, Pending 2) ∷ (TryRecv, Got 1) ∷ (PollSend 2, Accepted) ∷ []) }
    ensures later_moved_in { WrongAtEnd (Some 0) ((Send 1, Pending 1) ∷ (Send 2, Pending 2)
        ∷ (TryRecv, Got 2) ∷ []) }
    ensures withdrawn_handed_out { WrongAtEnd (Some 0) ((Send 1, Pending 1)
        ∷ (WithdrawSend 1, Returned 1 false) ∷ (TryRecv, Got 1) ∷ []) }
    ensures sent_past_capacity { WrongAtEnd (Some 1) ((Send 1, Sent None) ∷ (Send 2, Sent None)
        ∷ []) }
    ensures pending_below_capacity { WrongAtEnd (Some 1) ((Send 1, Pending 1) ∷ []) }
    ensures pending_while_closed { WrongAtEnd (Some 1) ((DropReceiver, Done) ∷ (Send 1, Pending 1)
        ∷ []) }
    ensures spent_too_early { WrongAtEnd (Some 0) ((Send 1, Spent (Some 1)) ∷ []) }
    ensures sender_after_last { WrongAtEnd (Some 1) ((DropSender, Done) ∷ (CloneSender, Done)
        ∷ []) }
    ensures receiver_after_last { WrongAtEnd (Some 1) ((DropReceiver, Done) ∷ (CloneReceiver, Done)
        ∷ []) }
    ensures count_full_at_one { WrongAtEnd (Some 1) ((CloneSender, CountFull) ∷ []) }
    ensures senders_one_off { WrongAtEnd (Some 1) ((CloneSender, Done) ∷ (SenderCount, Number 1)
        ∷ []) }
    ensures receivers_one_off { WrongAtEnd (Some 1) ((DropReceiver, Done)
        ∷ (ReceiverCount, Number 1) ∷ []) }
    ensures full_denied { WrongAtEnd (Some 1) ((TrySend 1, Sent None) ∷ (IsFull, Flag false)
        ∷ []) }
    ensures empty_with_message { WrongAtEnd (Some 1) ((TrySend 1, Sent None) ∷ (IsEmpty, Flag true)
        ∷ []) }
    ensures disconnected_while_open { WrongAtEnd (Some 1) ((CloneSender, Done) ∷ (DropSender, Done)
        ∷ (IsDisconnected, Flag true) ∷ []) }
    ensures capacity_one_off { WrongAtEnd (Some 1) ((Capacity, Bound (Some 2)) ∷ []) }
{}
