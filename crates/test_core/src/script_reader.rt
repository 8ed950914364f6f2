//! A plain reader of scripts, written from these rules alone. A line ends in a line feed, of which
//! the last may be missing; one carriage return before it is dropped. Words are separated by one
//! space, with none before or after. A number is one or more ASCII digits, at most 2^64 - 1; zeros
//! may come first. Any other byte or number of words makes a line wrong. The first line is
//! `unbounded` or `bounded N`, each other one a step. With no line, line 1 is wrong.

const ALONE: &str = "try_recv drain clone_sender clone_receiver drop_sender drop_receiver len \
    is_empty is_full capacity sender_count receiver_count is_disconnected";

const WITH_NUMBER: &str = "try_send send poll_send withdraw_send poll withdraw set_capacity";

const KINDS: &str = "block plain stream arm";

fn is_one_of(word: &[u8], words: &str) -> bool {
    words.split(" ").any(|other| word == other.as_bytes())
}

fn is_number(word: &[u8]) -> bool {
    let mut value = 0u128;
    for &byte in word {
        if byte < 48 || byte > 57 {
            return false;
        }
        value = value.saturating_mul(10);
        value = value.saturating_add((byte - 48) as u128);
    }
    !word.is_empty() && value <= u64::MAX as u128
}

fn split_word(line: &[u8]) -> (&[u8], Option<&[u8]>) {
    for (place, &byte) in line.iter().enumerate() {
        if byte == 32 {
            let (word, rest) = line.split_at(place);
            return (word, rest.get(1..));
        }
    }
    (line, None)
}

// What is after the first space is one word: a number or a kind has no space in it.
fn is_right(line: &[u8], is_first: bool) -> bool {
    let (word, rest) = split_word(line);
    match (is_first, rest) {
        (true, None) => is_one_of(word, "unbounded"),
        (true, Some(rest)) => is_one_of(word, "bounded") && is_number(rest),
        (false, None) => is_one_of(word, ALONE),
        (false, Some(rest)) if is_one_of(word, "recv") => is_one_of(rest, KINDS),
        (false, Some(rest)) => is_one_of(word, WITH_NUMBER) && is_number(rest),
    }
}

/// How many lines there are, if each is right; else the number of the first wrong one, from 1.
pub(crate) fn read(script: &[u8]) -> Result<u64, u64> {
    let mut number = 1u64;
    let mut start = 0usize;
    for (place, &byte) in script.iter().enumerate() {
        if byte != 10 {
            continue;
        }
        let line = script.get(start..place).unwrap_or_default();
        if !is_right(line.strip_suffix(b"\r").unwrap_or(line), number == 1) {
            return Err(number);
        }
        start = place.saturating_add(1);
        number = number.saturating_add(1);
    }
    let last = script.get(start..).unwrap_or_default();
    if last.is_empty() && start > 0 {
        return Ok(number.saturating_sub(1));
    }
    if is_right(last, number == 1) {
        Ok(number)
    } else {
        Err(number)
    }
}
