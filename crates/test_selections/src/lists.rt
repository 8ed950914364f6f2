//! Selections that only try their arms, that begin with a random arm, and that have lists of arms.
use crate::fixtures::{channel, is, unwrap};
use flume::Selector;
use flume::select::SelectError;
use rand::rngs::SmallRng;
use rand_core::SeedableRng;
use std::time::Duration;
use test_support::arms::HowLong::Tried;
use test_support::selections::{Winner, receive, send, send_or_receive};

#[test]
fn a_tried_selection_takes_the_first_arm_that_can_go_on_and_waits_for_none(rt: HostRuntime) {
    let (tx, rx) = channel(rt, rt.alloc(), Some(1));
    is(&rt, receive(&rx, Tried).ok(), None);
    is(&rt, send(&tx, 1, Tried), Ok(Winner::Sent(Ok(()))));
    is(&rt, send(&tx, 2, Tried).ok(), None);
    let won = send_or_receive(&tx, 3, &rx, Tried);
    is(&rt, won, Ok(Winner::First(Ok(1))));
}

#[test]
fn a_selection_begins_with_the_arm_that_its_generator_draws(rt: HostRuntime) {
    let (tx, rx) = channel(rt, rt.alloc(), None);
    // Of two arms a generator of this seed draws this one.
    for (seed, drawn) in [(0, 0), (1, 1), (2, 1), (3, 0)] {
        is(&rt, tx.try_send(7), Ok(()));
        let arms = Selector::new().recv(&rx, |answer| (0, answer.ok()));
        let arms = arms.recv(&rx, |answer| (1, answer.ok()));
        let arms = arms.with_rng(&mut SmallRng::seed_from_u64(seed));
        is(&rt, unwrap(&rt, arms.try_wait()), Some((drawn, Some(7))));
    }
}

#[test]
fn of_a_list_of_receivers_the_first_with_a_message_wins_behind_an_arm_before(rt: HostRuntime) {
    let (tx, rx) = channel(rt, rt.alloc(), None);
    let (other, other_rx) = channel(rt, rt.alloc(), None);
    let (before, before_rx) = channel(rt, rt.alloc(), None);
    let list = unwrap(&rt, vec![in rt.alloc(); rx, other_rx]);
    is(&rt, (tx.try_send(1), other.try_send(2)), (Ok(()), Ok(())));
    is(&rt, before.try_send(3), Ok(()));
    // The places of the list are counted from 1 on.
    for won in [
        Some((0, Some(3))),
        Some((1, Some(1))),
        Some((2, Some(2))),
        None,
    ] {
        let arms = Selector::new().recv(&before_rx, |answer| (0, answer.ok()));
        let arms = arms.recv_each(
            &list,
            |place, answer| (place.saturating_add(1), answer.ok()),
        );
        let arms = unwrap(&rt, arms.map_err(|_| ()));
        is(&rt, unwrap(&rt, arms.try_wait()), won);
    }
}

#[test]
fn a_list_of_receivers_whose_time_is_over_waits_in_none_of_the_channels(rt: HostRuntime) {
    let (tx, rx) = channel(rt, rt.alloc(), None);
    let (other, other_rx) = channel(rt, rt.alloc(), None);
    let list = unwrap(&rt, vec![in rt.alloc(); rx, other_rx]);
    let arms = Selector::new().recv_each(&list, |place, answer| (place, answer.ok()));
    let arms = unwrap(&rt, arms.map_err(|_| ()));
    let won: Result<(usize, Option<u64>), _> = arms.wait_timeout(Duration::from_millis(1));
    is(&rt, won, Err(SelectError::Timeout));
    is(
        &rt,
        (tx.waiting_receivers(), other.waiting_receivers()),
        (0, 0),
    );
}

#[test]
fn of_a_list_of_sends_the_first_with_room_wins_and_no_other_message_is_sent(rt: HostRuntime) {
    let (tx, _rx) = channel(rt, rt.alloc(), Some(0));
    let (other, other_rx) = channel(rt, rt.alloc(), Some(2));
    for won in [Some((1, true)), Some((1, true)), None] {
        let list = unwrap(&rt, vec![in rt.alloc(); (&tx, 5), (&other, 6), (&other, 7)]);
        let arms = Selector::new().send_each(list, |place, sent| (place, sent.is_ok()));
        let arms = unwrap(&rt, arms.map_err(|_| ()));
        is(&rt, unwrap(&rt, arms.try_wait()), won);
    }
    is(
        &rt,
        (other_rx.try_recv(), other_rx.try_recv()),
        (Ok(6), Ok(6)),
    );
    is(&rt, other_rx.len(), 0);
}
