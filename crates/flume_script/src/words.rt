//! The words of steps, for reading and for writing.
ghost use Rattle.flume_model.specs.declared.step.Step.{Step as AnyStep};
ghost use Rattle.flume_model.specs.declared.step.Step.TheVariants.{Recv};
ghost use Rattle.flume_script.specs.Script.{step_parts};
ghost use Rattle.std.specs.List.{All};
ghost use Rattle.std.specs.Prelude.{IfSome, ◌≡◌, ◌≢◌, ℕ, Some, None};

use flume_model::step::{Kind, Step};

/// The word of a step, or the two of one that parks, and the number behind it, if any.
/// ```
/// parts_of(&Step::Poll(2));          // ("poll", Some(2))
/// parts_of(&Step::Recv(Kind::Arm));  // ("recv arm", None)
/// ```
pub fn parts_of(step: &Step<u64>) -> (&'static str, Option<u64>)
    ensures word { result.0.now ≡ (step_parts step.now).0 }
    ensures number { result.1 ≡ (step_parts step.now).1 }
{
    match *step {
        Step::TrySend(message) => ("try_send", Some(message)),
        Step::Send(message) => ("send", Some(message)),
        Step::PollSend(ticket) => ("poll_send", Some(ticket)),
        Step::WithdrawSend(ticket) => ("withdraw_send", Some(ticket)),
        Step::TryRecv => ("try_recv", None),
        Step::Recv(kind) => (words_of(kind), None),
        Step::Poll(ticket) => ("poll", Some(ticket)),
        Step::Withdraw(ticket) => ("withdraw", Some(ticket)),
        Step::Drain => ("drain", None),
        Step::CloneSender => ("clone_sender", None),
        Step::CloneReceiver => ("clone_receiver", None),
        Step::DropSender => ("drop_sender", None),
        Step::DropReceiver => ("drop_receiver", None),
        Step::SetCapacity(capacity) => ("set_capacity", Some(capacity as u64)),
        Step::Len => ("len", None),
        Step::IsEmpty => ("is_empty", None),
        Step::IsFull => ("is_full", None),
        Step::Capacity => ("capacity", None),
        Step::SenderCount => ("sender_count", None),
        Step::ReceiverCount => ("receiver_count", None),
        Step::IsDisconnected => ("is_disconnected", None),
    }
}

fn words_of(kind: Kind) -> &'static str
    ensures words { result.now ≡ (step_parts (Recv kind)).0 }
{
    match kind {
        Kind::Block => "recv block",
        Kind::Plain => "recv plain",
        Kind::Stream => "recv stream",
        Kind::Arm => "recv arm",
    }
}

fn find_step(steps: &[Step<u64>], word: &[u8], number: Option<u64>) -> Option<Step<u64>>
    ensures some { IfSome result (λ step. step_parts step ≡ (word.now, number)) }
    ensures none { result ≡ None → All (λ step. step_parts step ≢ (word.now, number)) steps.now }
{
    for step in steps {
        let (its_word, its_number) = parts_of(step);
        if its_word.as_bytes() == word && its_number == number {
            return Some(*step);
        }
    }
    None
}

pub(crate) fn step_without_number(word: &[u8]) -> Option<Step<u64>>
    ensures some { IfSome result (λ step. step_parts step ≡ (word.now, None)) }
    ensures none { (step : AnyStep ℕ) → step_parts step ≡ (word.now, None) → result ≢ None }
{
    let steps = [
        Step::TryRecv,
        Step::Recv(Kind::Block),
        Step::Recv(Kind::Plain),
        Step::Recv(Kind::Stream),
        Step::Recv(Kind::Arm),
        Step::Drain,
        Step::CloneSender,
        Step::CloneReceiver,
        Step::DropSender,
        Step::DropReceiver,
        Step::Len,
        Step::IsEmpty,
        Step::IsFull,
        Step::Capacity,
        Step::SenderCount,
        Step::ReceiverCount,
        Step::IsDisconnected,
    ];
    find_step(&steps, word, None)
}

pub(crate) fn step_with_number(word: &[u8], number: u64) -> Option<Step<u64>>
    ensures some { IfSome result (λ step. step_parts step ≡ (word.now, Some number)) }
    ensures none { (step : AnyStep ℕ) (other : ℕ) → step_parts step ≡ (word.now, Some other)
        → result ≢ None }
{
    let steps = [
        Step::TrySend(number),
        Step::Send(number),
        Step::PollSend(number),
        Step::WithdrawSend(number),
        Step::Poll(number),
        Step::Withdraw(number),
        Step::SetCapacity(number as usize),
    ];
    find_step(&steps, word, Some(number))
}
