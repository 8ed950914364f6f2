//! The texts of replies.
ghost use Rattle.flume_script.specs.ReplyTexts.{spaced, reply_text, reply_texts};
ghost use Rattle.flume_model.specs.declared.step.Reply.TheVariants.{Capacity, Gone, Returned, Sent};
ghost use Rattle.flume_model.specs.declared.step.Reply.TheVariants.{Flag};
ghost use Rattle.std.specs.Fmt.{decimal};
ghost use Rattle.std.specs.Prelude.{IfNone, IfOk, IfSome, OnOk, ◌≡◌, [], ◌∷◌, ◌++◌};
ghost use Rattle.std.specs.Prelude.{codes, string_bytes};

use flume_core::error::NoMemory;
use flume_model::step::Reply;
use std::alloc::Allocator;

fn write_sent<A: Allocator>(text: &mut String<A>, filled: Option<u64>) -> Result<(), NoMemory>
    ensures value { OnOk result (string_bytes text.new
        ≡ string_bytes text.old ++ (reply_text {A = A} (Sent filled) ++ 10 ∷ [])) }
{
    match filled {
        None => text.push_str("sent\n")?,
        Some(ticket) => writeln!(text, "sent filled {ticket}")?,
    }
    Ok(())
}

fn write_returned<A: Allocator>(
    text: &mut String<A>,
    message: u64,
    closed: bool,
) -> Result<(), NoMemory>
    ensures value { OnOk result (string_bytes text.new
        ≡ string_bytes text.old ++ (reply_text {A = A} (Returned message closed) ++ 10 ∷ [])) }
{
    if closed {
        writeln!(text, "returned {message} closed")?;
    } else {
        writeln!(text, "returned {message}")?;
    }
    Ok(())
}

fn write_gone<A: Allocator>(
    text: &mut String<A>,
    closed: bool,
    filled: Option<u64>,
) -> Result<(), NoMemory>
    ensures value { OnOk result (string_bytes text.new
        ≡ string_bytes text.old ++ (reply_text {A = A} (Gone closed filled) ++ 10 ∷ [])) }
{
    match (closed, filled) {
        (false, None) => text.push_str("gone\n")?,
        (true, None) => text.push_str("gone closed\n")?,
        (false, Some(ticket)) => writeln!(text, "gone filled {ticket}")?,
        (true, Some(ticket)) => writeln!(text, "gone closed filled {ticket}")?,
    }
    Ok(())
}

fn write_drained<A: Allocator>(text: &mut String<A>, list: &[u64]) -> Result<(), NoMemory>
    ensures value { OnOk result (string_bytes text.new
        ≡ string_bytes text.old ++ (codes "drained" ++ spaced list.now ++ 10 ∷ [])) }
{
    text.push_str("drained")?;
    for message in list {
        write!(text, " {message}")?;
    }
    text.push_str("\n")?;
    Ok(())
}

fn write_refused<A: Allocator>(
    text: &mut String<A>,
    word: &str,
    message: Option<u64>,
) -> Result<(), NoMemory>
    ensures none { OnOk result (IfNone message
        (string_bytes text.new ≡ string_bytes text.old ++ (word.now ++ 10 ∷ []))) }
    ensures some { OnOk result (IfSome message (λ m. string_bytes text.new
        ≡ string_bytes text.old ++ (word.now ++ 32 ∷ (decimal m ++ 10 ∷ [])))) }
{
    match message {
        None => writeln!(text, "{word}")?,
        Some(message) => writeln!(text, "{word} {message}")?,
    }
    Ok(())
}

fn write_flag<A: Allocator>(text: &mut String<A>, flag: bool) -> Result<(), NoMemory>
    ensures value { OnOk result (string_bytes text.new
        ≡ string_bytes text.old ++ (reply_text {A = A} (Flag flag) ++ 10 ∷ [])) }
{
    if flag {
        text.push_str("true\n")?;
    } else {
        text.push_str("false\n")?;
    }
    Ok(())
}

fn write_capacity<A: Allocator>(
    text: &mut String<A>,
    capacity: Option<usize>,
) -> Result<(), NoMemory>
    ensures value { OnOk result (string_bytes text.new
        ≡ string_bytes text.old ++ (reply_text {A = A} (Capacity capacity) ++ 10 ∷ [])) }
{
    match capacity {
        None => text.push_str("none\n")?,
        Some(capacity) => writeln!(text, "{capacity}")?,
    }
    Ok(())
}

/// Adds the text of a reply, and a line feed. `NoMemory`: it couldn't grow; a part may be added.
/// ```
/// let mut text = String::new(alloc);
/// write_reply(&mut text, &Reply::Got(12))?;
/// text.as_str();                     // "got 12\n"
/// ```
pub fn write_reply<A: Allocator>(
    text: &mut String<A>,
    reply: &Reply<u64, A>,
) -> Result<(), NoMemory>
    ensures value { OnOk result
        (string_bytes text.new ≡ string_bytes text.old ++ (reply_text reply.now ++ 10 ∷ [])) }
{
    Ok(match reply {
        Reply::Sent { filled } => write_sent(text, *filled)?,
        Reply::Full(message) => writeln!(text, "full {message}")?,
        Reply::Closed(message) => writeln!(text, "closed {message}")?,
        Reply::NoMemory(message) => write_refused(text, "nomemory", *message)?,
        Reply::Spent(message) => write_refused(text, "spent", *message)?,
        Reply::Pending(ticket) => writeln!(text, "pending {ticket}")?,
        Reply::Accepted => text.push_str("accepted\n")?,
        Reply::Waiting => text.push_str("waiting\n")?,
        Reply::Returned { message, closed } => write_returned(text, *message, *closed)?,
        Reply::NoTicket => text.push_str("noticket\n")?,
        Reply::Got(message) => writeln!(text, "got {message}")?,
        Reply::Empty => text.push_str("empty\n")?,
        Reply::Ended => text.push_str("ended\n")?,
        Reply::Parked(ticket) => writeln!(text, "parked {ticket}")?,
        Reply::Gone { closed, filled } => write_gone(text, *closed, *filled)?,
        Reply::Drained(list) => write_drained(text, list)?,
        Reply::Done => text.push_str("done\n")?,
        Reply::NoEnd => text.push_str("noend\n")?,
        Reply::CountFull => text.push_str("countfull\n")?,
        Reply::Number(number) => writeln!(text, "{number}")?,
        Reply::Flag(flag) => write_flag(text, *flag)?,
        Reply::Capacity(capacity) => write_capacity(text, *capacity)?,
        Reply::Unbounded => text.push_str("unbounded\n")?,
    })
}

/// The texts of the replies, each on a line. `NoMemory`: an allocation failed.
/// ```
/// write_replies(alloc, &[Reply::Got(12), Reply::Empty])?;    // "got 12\nempty\n"
/// ```
#[tactic(auto, using(crate::proofs::ScriptReplyLemmas::reply_texts_more))]
pub fn write_replies<A: Allocator + Copy>(
    alloc: A,
    replies: &[Reply<u64, A>],
) -> Result<Vec<u8, A>, NoMemory>
    ensures value { IfOk result (λ bytes. bytes.items ≡ reply_texts replies.now) }
{
    let mut text = String::new(alloc);
    for reply in replies {
        write_reply(&mut text, reply)?;
    }
    Ok(text.into_bytes())
}
