//! The texts of calls.
ghost use Rattle.std.specs.Prelude.{MatchOption, IsTrue, OnOk, ◌≡◌, ◌↔◌, ◌==◌, ◌++◌, ◌∷◌};
ghost use Rattle.std.specs.Prelude.{false, string_bytes};
ghost use Rattle.std.specs.List.{All};
ghost use Rattle.std.specs.Fmt.{decimal};
ghost use Rattle.judge_calls.specs.Texts.{call_number, call_text, call_word};
ghost use Rattle.judge_calls.specs.Texts.{IsCallText, IsNoCall};

use crate::call::Call;
use crate::numbers::number_of;
use flume_error::error::NoMemory;
use flume_script::reading::part_at;
use std::alloc::Allocator;

pub(crate) fn is_text(text: &[u8], word: &[u8]) -> bool
    ensures value { IsTrue result ↔ (text.now ≡ word.now) }
{
    text == word
}

fn plain_call(word: &[u8]) -> Option<Call<u64>>
    requires no_space { All (λ x. (x == 32) ≡ false) word.now }
    ensures value { MatchOption result (IsNoCall word.now) (IsCallText word.now) }
{
    match word {
        _ if is_text(word, b"recv") => Some(Call::Recv),
        _ if is_text(word, b"recv_timeout") => Some(Call::RecvTimeout),
        _ if is_text(word, b"recv_async") => Some(Call::RecvAsync),
        _ if is_text(word, b"try_recv") => Some(Call::TryRecv),
        _ if is_text(word, b"drain") => Some(Call::Drain),
        _ if is_text(word, b"clone_sender") => Some(Call::CloneSender),
        _ if is_text(word, b"clone_receiver") => Some(Call::CloneReceiver),
        _ if is_text(word, b"drop_sender") => Some(Call::DropSender),
        _ if is_text(word, b"drop_receiver") => Some(Call::DropReceiver),
        _ if is_text(word, b"len") => Some(Call::Len),
        _ if is_text(word, b"is_empty") => Some(Call::IsEmpty),
        _ if is_text(word, b"is_full") => Some(Call::IsFull),
        _ if is_text(word, b"capacity") => Some(Call::Capacity),
        _ if is_text(word, b"sender_count") => Some(Call::SenderCount),
        _ if is_text(word, b"receiver_count") => Some(Call::ReceiverCount),
        _ if is_text(word, b"is_disconnected") => Some(Call::IsDisconnected),
        _ => None,
    }
}

fn number_call(word: &[u8], number: u64) -> Option<Call<u64>>
    requires no_space { All (λ x. (x == 32) ≡ false) word.now }
    ensures value { MatchOption result (IsNoCall (word.now ++ 32 ∷ decimal number))
        (IsCallText (word.now ++ 32 ∷ decimal number)) }
{
    match word {
        _ if is_text(word, b"send") => Some(Call::Send(number)),
        _ if is_text(word, b"send_timeout") => Some(Call::SendTimeout(number)),
        _ if is_text(word, b"send_async") => Some(Call::SendAsync(number)),
        _ if is_text(word, b"try_send") => Some(Call::TrySend(number)),
        _ if is_text(word, b"set_capacity") => Some(Call::SetCapacity(number as usize)),
        _ => None,
    }
}

/// The call of a text, if any.
/// ```
/// call_of(b"send 7");                // Some(Send(7))
/// call_of(b"send");                  // None
/// ```
pub fn call_of(text: &[u8]) -> Option<Call<u64>>
    ensures value { MatchOption result (IsNoCall text.now) (IsCallText text.now) }
{
    match part_at(text, b' ') {
        None => plain_call(text),
        Some((word, digits)) => number_call(word, number_of(digits)?),
    }
}

fn word_of(call: &Call<u64>) -> &'static str
    ensures value { result.now ≡ call_word call.now }
{
    match call {
        Call::Send(_) => "send",
        Call::SendTimeout(_) => "send_timeout",
        Call::SendAsync(_) => "send_async",
        Call::TrySend(_) => "try_send",
        Call::Recv => "recv",
        Call::RecvTimeout => "recv_timeout",
        Call::RecvAsync => "recv_async",
        Call::TryRecv => "try_recv",
        Call::Drain => "drain",
        Call::CloneSender => "clone_sender",
        Call::CloneReceiver => "clone_receiver",
        Call::DropSender => "drop_sender",
        Call::DropReceiver => "drop_receiver",
        Call::SetCapacity(_) => "set_capacity",
        Call::Len => "len",
        Call::IsEmpty => "is_empty",
        Call::IsFull => "is_full",
        Call::Capacity => "capacity",
        Call::SenderCount => "sender_count",
        Call::ReceiverCount => "receiver_count",
        Call::IsDisconnected => "is_disconnected",
    }
}

fn number_in(call: &Call<u64>) -> Option<u64>
    ensures value { result ≡ call_number call.now }
{
    match call {
        Call::Send(message) => Some(*message),
        Call::SendTimeout(message) => Some(*message),
        Call::SendAsync(message) => Some(*message),
        Call::TrySend(message) => Some(*message),
        Call::SetCapacity(capacity) => Some(*capacity as u64),
        _ => None,
    }
}

/// Adds the text of a call. `NoMemory`: the text couldn't grow, and may have a part of this.
/// ```
/// let mut text = String::new(alloc);
/// write_call(&mut text, &Call::Send(7))?;
/// text.as_str();                     // "send 7"
/// ```
pub fn write_call<A: Allocator>(text: &mut String<A>, call: &Call<u64>) -> Result<(), NoMemory>
    ensures value { OnOk result
        (string_bytes text.new ≡ string_bytes text.old ++ call_text call.now) }
{
    let word = word_of(call);
    match number_in(call) {
        None => text.push_str(word)?,
        Some(number) => write!(text, "{word} {number}")?,
    }
    Ok(())
}
