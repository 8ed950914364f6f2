//! What a call does before it sleeps, since a sleep costs far more than what it waits for.
use crate::signal::YIELDS;
use std::cmp::min;
use std::hint::spin_loop;

const SMALL_CAPACITY: u64 = 2;

pub(crate) const UNBOUNDED: u64 = u64::MAX;

const CHECKS: u32 = 220;

const FEW_PAUSES: u32 = 16;

const PAUSES_A_MESSAGE: u32 = 4;

const MOST_MESSAGES: u64 = 72;

// Once a wake is seen: whoever rang still has the lock that the call takes next.
pub(crate) const PAUSES_AFTER_WAKE: u32 = 12;

#[derive(Clone, Copy, Drop)]
pub(crate) struct Backoff {
    pub(crate) pauses_before_parking: u32,
    pub(crate) checks_once_parked: u32,
}

impl Backoff {
    // At a small capacity a call parks at once, at a greater one it first lets messages gather. On
    // an unbounded channel neither helped.
    pub(crate) fn of(capacity_hint: u64) -> Backoff {
        let (pauses_before_parking, checks_once_parked) = if capacity_hint <= SMALL_CAPACITY {
            (0, CHECKS)
        } else if capacity_hint < UNBOUNDED {
            let messages = min(capacity_hint, MOST_MESSAGES) as u32;
            let pauses = messages.saturating_mul(PAUSES_A_MESSAGE);
            (pauses.saturating_add(FEW_PAUSES), YIELDS)
        } else {
            (0, 0)
        };
        Backoff {
            pauses_before_parking,
            checks_once_parked,
        }
    }
}

pub(crate) const LOCK_TRIES: u32 = 8;

pub(crate) const FIRST_PAUSES: u32 = 32;

pub(crate) fn pause(pauses: u32) {
    for _ in 0..pauses {
        spin_loop();
    }
}
