//! Lists of messages, and whether they are in order.
use crate::in_order::{MESSAGES, WORKERS, in_order};
use std::alloc::Global;
use std::test::Fail;

fn one_after_the_other(alloc: Global) -> Result<Vec<(u64, u64)>, Fail> {
    let mut messages = Vec::new(alloc);
    for worker in 0..WORKERS {
        for number in 1..=MESSAGES {
            messages.push((worker, number))?;
        }
    }
    Ok(messages)
}

#[test]
fn the_messages_of_one_worker_after_the_other_are_in_order(rt: HostRuntime) -> Result<(), Fail> {
    let messages = one_after_the_other(rt.alloc())?;
    assert!(rt; in_order(&messages));
    Ok(())
}

#[test]
fn two_messages_of_a_worker_that_changed_places_are_not(rt: HostRuntime) -> Result<(), Fail> {
    let mut messages = one_after_the_other(rt.alloc())?;
    if let [first, second, ..] = &mut messages[..] {
        std::mem::swap(first, second);
    }
    assert!(rt; !in_order(&messages));
    Ok(())
}

#[test]
fn a_message_too_many_is_not(rt: HostRuntime) -> Result<(), Fail> {
    for more in [(0, 101), (2, 100), (3, 1)] {
        let mut messages = one_after_the_other(rt.alloc())?;
        messages.push(more)?;
        assert!(rt; !in_order(&messages));
    }
    Ok(())
}

#[test]
fn no_message_and_one_alone_are_not(rt: HostRuntime) {
    assert!(rt; !in_order(&[]));
    assert!(rt; !in_order(&[(0, 1)]));
}
