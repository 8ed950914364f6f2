//! Laws that check the definitions of `judge_calls` against those of `flume_calls`.
ghost use Rattle.std.specs.Prelude.{◌≡◌, ℕ, Bool, true, false, Some, Result, Ok};
ghost use Rattle.flume.specs.declared.error.RecvTimeoutError.{RecvTimeoutError};
ghost use Rattle.flume.specs.Channel.{Channel};
ghost use Rattle.flume.specs.Replies.{IsReply};
ghost use Rattle.flume.specs.declared.step.Reply.{Reply};
ghost use Rattle.flume.specs.declared.step.Step.TheVariants.{PollSend};
ghost use Rattle.flume_calls.specs.SendTurns.{after_try_send, after_send, after_parked_send};
ghost use Rattle.flume_calls.specs.SendTurns.{step_of_parked_send};
ghost use Rattle.flume_calls.specs.ReceiveTurns.{after_try_recv, after_recv, after_parked_receive};
ghost use Rattle.flume_calls.specs.ReceiveTurns.{after_poll, after_withdraw, GivesNone};
ghost use Rattle.flume_calls.specs.ReceiveTurns.{step_of_parked_receive};
ghost use Rattle.flume_calls.specs.ReceiveGates.{got_or_no_memory};
ghost use Rattle.flume_calls.specs.declared.calls.receive.RecvNext.{RecvNext};
ghost use Rattle.flume_calls.specs.declared.calls.receive.RecvNext.TheVariants.{Done};
ghost use Rattle.flume_calls.specs.declared.calls.send.SendNext.{SendNext};
ghost use Rattle.judge_calls.specs.Answers.{equal_answers, may_return};
ghost use Rattle.judge_calls.specs.Calls.{is_send, next_step, alternative_step, stage_after};
ghost use Rattle.judge_calls.specs.declared.call.Call.{Call};
ghost use Rattle.judge_calls.specs.declared.call.Call.TheVariants.{SendTimeout, SendAsync};
ghost use Rattle.judge_calls.specs.declared.call.Call.TheVariants.{RecvTimeout, RecvAsync};
ghost use Rattle.judge_calls.specs.declared.call.Answer.{Answer};
ghost use Rattle.judge_calls.specs.declared.call.Answer.TheVariants.{Got, Dropped};
ghost use Rattle.judge_calls.specs.declared.stage.Stage.TheVariants.{Begun, Tried, Parked};
ghost use Rattle.judge_calls.specs.declared.stage.Stage.TheVariants.{Refused};
ghost use Rattle.judge_recorder.specs.Led.{stage_of_send, stage_of_receive};
ghost use Rattle.judge_recorder.specs.Led.{blocks_to_receive, unrefused, untimed};

use std::alloc::Allocator;

/// Each reply leads a send that waits to the same stage as the turn that makes the same step.
pub fn sends_agree<T, A: Allocator>()
    ensures tries { (call : Call T) (reply : Reply T A) (next : SendNext T)
        → is_send call ≡ true → after_try_send reply next
        → stage_after call Begun reply ≡ stage_of_send next }
    ensures parks { (call : Call T) (reply : Reply T A) (next : SendNext T)
        → is_send call ≡ true → after_send reply next
        → stage_after call Tried reply ≡ stage_of_send next }
    ensures begins { (message : T) (reply : Reply T A) (next : SendNext T) → after_send reply next
        → stage_after (SendAsync message) Begun reply ≡ stage_of_send next }
    ensures asks { (call : Call T) (c : Channel T) (t : ℕ) (reply : Reply T A) (next : SendNext T)
        → is_send call ≡ true → IsReply c (PollSend t) reply → after_parked_send t false reply next
        → stage_after call (Parked t) reply ≡ stage_of_send next }
    ensures leaves { (message : T) (t : ℕ) (reply : Reply T A) (next : SendNext T)
        → after_parked_send t true reply next
        → stage_after (SendTimeout message) (Parked t) reply ≡ stage_of_send next }
    ensures dropped { (message : T) (t : ℕ) (reply : Reply T A) (next : SendNext T)
        → after_parked_send t true reply next
        → stage_after (SendAsync message) (Parked t) reply ≡ stage_of_send (untimed next) }
    ensures asks_step { (call : Call T) (t : ℕ) → is_send call ≡ true
        → next_step {A = A} call (Parked t) ≡ Some (step_of_parked_send t false) }
    ensures leaves_step { (message : T) (t : ℕ)
        → alternative_step {A = A} (SendTimeout message) (Parked t)
        ≡ Some (step_of_parked_send t true) }
{}

/// Each reply leads a receive that blocks to the same stage as the turn that makes the same step.
pub fn receives_agree<T, A: Allocator>()
    ensures tries { (call : Call T) (reply : Reply T A) (next : RecvNext T)
        → blocks_to_receive call ≡ true → after_try_recv reply next
        → stage_after call Begun reply ≡ stage_of_receive next }
    ensures parks { (call : Call T) (reply : Reply T A) (next : RecvNext T)
        → blocks_to_receive call ≡ true → after_recv reply next
        → stage_after call Tried reply ≡ stage_of_receive next }
    ensures asks { (call : Call T) (t : ℕ) (reply : Reply T A) (next : RecvNext T)
        → blocks_to_receive call ≡ true → after_parked_receive t false reply next
        → stage_after call (Parked t) reply ≡ stage_of_receive next }
    ensures leaves { (t : ℕ) (reply : Reply T A) (next : RecvNext T)
        → after_parked_receive t true reply next
        → stage_after RecvTimeout (Parked t) reply ≡ stage_of_receive next }
    ensures withdraws { (call : Call T) (t : ℕ) (reply : Reply T A)
        (answer : Result T RecvTimeoutError)
        → blocks_to_receive call ≡ true → after_parked_receive t true reply (Done answer)
        → stage_after call (Refused t) reply
        ≡ stage_of_receive (Done (got_or_no_memory answer)) }
    ensures asks_step { (call : Call T) (t : ℕ) → blocks_to_receive call ≡ true
        → next_step {A = A} call (Parked t) ≡ Some (step_of_parked_receive t false) }
    ensures leaves_step { (t : ℕ)
        → alternative_step {T = T} {A = A} RecvTimeout (Parked t)
        ≡ Some (step_of_parked_receive t true) }
{}

/// Each reply leads a receive that is polled to the same stage as the turn that makes the same
/// step. Once it has a message it returns that, and isn't dropped; one that leaves with none may be.
pub fn polled_receives_agree<T, A: Allocator>()
    ensures tries { (reply : Reply T A) (next : RecvNext T) → after_try_recv reply next
        → (stage_after RecvAsync Begun reply ≡ stage_of_receive next)
        × (stage_after RecvAsync Tried reply ≡ stage_of_receive next) }
    ensures parks { (reply : Reply T A) (next : RecvNext T) → after_recv reply next
        → (stage_after RecvAsync Begun reply ≡ stage_of_receive next)
        × (stage_after RecvAsync Tried reply ≡ stage_of_receive next) }
    ensures asks { (t : ℕ) (reply : Reply T A) (next : RecvNext T) → after_poll t reply next
        → stage_after RecvAsync (Parked t) reply ≡ stage_of_receive (unrefused next) }
    ensures returns { (equal : T → T → Bool) (message : T) (recorded : Answer T A)
        → may_return equal RecvAsync (stage_of_receive (Done (Ok message))) recorded
        ≡ equal_answers equal recorded (Got message) }
    ensures leaves_with { (equal : T → T → Bool) (t : ℕ) (reply : Reply T A) (message : T)
        → after_withdraw reply (Done (Ok message))
        → may_return equal RecvAsync (stage_after RecvAsync (Parked t) reply) Dropped ≡ false }
    ensures leaves { (equal : T → T → Bool) (t : ℕ) (reply : Reply T A) (next : RecvNext T)
        → after_withdraw reply next → GivesNone next
        → may_return equal RecvAsync (stage_after RecvAsync (Parked t) reply) Dropped ≡ true }
    ensures asks_step { (t : ℕ) → next_step {T = T} {A = A} RecvAsync (Parked t)
        ≡ Some (step_of_parked_receive t false) }
    ensures leaves_step { (t : ℕ) → alternative_step {T = T} {A = A} RecvAsync (Parked t)
        ≡ Some (step_of_parked_receive t true) }
{}
