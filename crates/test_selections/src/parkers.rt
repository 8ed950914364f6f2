//! A wake before a wait, before its sleep, or in its sleep. A wait with a deadline reads its clock
//! as it has found no wake, once it has let go of its lock to sleep, and as its sleep ends: there
//! the clock of this test fires. A wait without a deadline reads no clock: see `tools/gate/idle`.
use crate::fixtures::{is, start_watchdog};
use flume::signal::Parker;
use std::io;
use std::process::Abort;
use std::sync::Wait;
use std::sync::atomic::{AtomicU64, Ordering};
use std::time::{Clock, Duration, Instant};

// A wait, and the readings of its clock, numbered from 0: the first one makes the deadline.
#[derive(Clone, Copy)]
struct TimedWait {
    // How many milliseconds each reading leaves to sleep.
    left: u64,
    // At which reading the parker is fired.
    fires_at: u64,
    // From which reading on the time is up.
    past_from: u64,
    // How often it reads the clock before it returns.
    readings: u64,
}

const NEVER: u64 = u64::MAX;

const HOUR: u64 = 3_600_000;

// No wake comes. One that was left by the wait before would end it at once.
const LATE: TimedWait = TimedWait {
    left: 1,
    fires_at: NEVER,
    past_from: 4,
    readings: 5,
};

const BEFORE_IT_BEGINS: TimedWait = TimedWait {
    left: HOUR,
    fires_at: 0,
    past_from: NEVER,
    readings: 1,
};

const TOO_LATE: TimedWait = TimedWait {
    left: HOUR,
    fires_at: 1,
    past_from: 1,
    readings: 2,
};

const ALREADY_WOKEN: TimedWait = TimedWait {
    left: HOUR,
    fires_at: NEVER,
    past_from: NEVER,
    readings: 1,
};

const AS_IT_FALLS_ASLEEP: TimedWait = TimedWait {
    left: HOUR,
    fires_at: 2,
    past_from: NEVER,
    readings: 4,
};

const AS_IT_WAKES_UP: TimedWait = TimedWait {
    left: 1,
    fires_at: 3,
    past_from: NEVER,
    readings: 4,
};

const AS_THE_TIME_IS_UP: TimedWait = TimedWait {
    left: 1,
    fires_at: 3,
    past_from: 3,
    readings: 4,
};

const IN_ITS_SECOND_SLEEP: TimedWait = TimedWait {
    left: 1,
    fires_at: 5,
    past_from: NEVER,
    readings: 7,
};

// It holds its lock: if a late wait had left the mark that it sleeps, the fire would wait for that.
const BEFORE_IT_SLEEPS: TimedWait = TimedWait {
    left: HOUR,
    fires_at: 1,
    past_from: NEVER,
    readings: 2,
};

const WAITS: &[TimedWait] = &[
    LATE,
    AS_IT_FALLS_ASLEEP,
    LATE,
    BEFORE_IT_SLEEPS,
    LATE,
    AS_IT_WAKES_UP,
    LATE,
    AS_THE_TIME_IS_UP,
    LATE,
    IN_ITS_SECOND_SLEEP,
    LATE,
    AS_IT_FALLS_ASLEEP,
    AS_IT_FALLS_ASLEEP,
    LATE,
    BEFORE_IT_BEGINS,
    LATE,
    TOO_LATE,
    ALREADY_WOKEN,
    LATE,
];

fn fire<R: Wait>(rt: &R, parker: &Parker, wakes: u32) {
    for _ in 0..wakes {
        parker.fire(rt);
    }
}

#[derive(Clone, Copy)]
struct FiringClock<'a, R> {
    rt: &'a R,
    parker: &'a Parker,
    readings: &'a AtomicU64,
    timed: TimedWait,
    fires: u32,
}

impl<R: Wait> Wait for FiringClock<'_, R> {}

impl<R: Wait> Clock for FiringClock<'_, R> {
    fn monotonic(&self) -> io::Result<Duration> {
        let reading = self.readings.fetch_add(1, Ordering::SeqCst);
        if reading == self.timed.fires_at {
            fire(self.rt, self.parker, self.fires);
        }
        let now = if reading == 0 {
            0
        } else if reading < self.timed.past_from {
            HOUR.saturating_sub(self.timed.left)
        } else {
            HOUR
        };
        Ok(Duration::from_millis(now))
    }

    fn since_1970(&self) -> io::Result<Duration> {
        self.monotonic()
    }
}

fn wait_once<R: Wait + Abort>(rt: &R, parker: &Parker, timed: TimedWait, fires: u32) {
    let readings = AtomicU64::new(0);
    let clock = FiringClock {
        rt,
        parker,
        readings: &readings,
        timed,
        fires,
    };
    let now = Instant::now(&clock).expect(rt, "this clock can be read");
    let deadline = now.checked_add(Duration::from_millis(HOUR)).unwrap_or(now);
    parker.wait_until(&clock, deadline);
    is(rt, readings.into_inner(), timed.readings);
}

const CHECKS: &[u32] = &[0, 100];

const FIRES: &[u32] = &[1, 2];

#[test]
fn a_wake_before_or_in_a_wait_ends_it_and_no_other_and_two_count_as_one(rt: HostRuntime) {
    let watchdog = start_watchdog(rt, rt.alloc());
    for &checks in CHECKS {
        for &fires in FIRES {
            let parker = Parker::new(checks);
            for &timed in WAITS {
                wait_once(&rt, &parker, timed, fires);
            }
            fire(&rt, &parker, fires);
            parker.wait(&rt);
            wait_once(&rt, &parker, LATE, fires);
        }
    }
    watchdog.end(&rt);
}
