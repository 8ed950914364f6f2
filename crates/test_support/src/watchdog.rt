//! A thread that fails a test in which nothing happens any more.
use crate::work::{Work, spawn_work};
use flume::Waits;
use std::alloc::{AllocError, Global};
use std::sync::atomic::{AtomicU64, Ordering};
use std::sync::{Arc, Condvar, Mutex};
use std::test::Fail;
use std::thread::{JoinHandle, Threads};
use std::time::{Duration, Instant};

/// What a test reports to its watchdog.
#[derive(Drop)]
pub struct Progress {
    steps: AtomicU64,
    is_over: Mutex<bool>,
    changed: Condvar,
}

/// The thread that watches a test.
#[derive(Drop)]
pub struct Watchdog {
    progress: Arc<Progress>,
    thread: JoinHandle<()>,
}

fn patience() -> Duration {
    Duration::from_secs(50)
}

fn left_since<R: Waits>(rt: &R, last: Instant) -> Duration {
    match Instant::now(rt) {
        Ok(now) => patience().saturating_sub(now.saturating_duration_since(last)),
        Err(_) => Duration::ZERO,
    }
}

// Whether the test is over; if not, nothing happened for too long.
fn watch_over<R: Waits>(rt: &R, progress: &Progress, began: Instant) -> bool {
    let (mut seen, mut last) = (0, began);
    let mut is_over = progress.is_over.lock(rt);
    for _ in rt.forever() {
        if *is_over {
            return true;
        }
        let steps = progress.steps.load(Ordering::Relaxed);
        if steps != seen {
            (seen, last) = (steps, Instant::now(rt).unwrap_or(last));
        }
        let left = left_since(rt, last);
        if left.is_zero() {
            return false;
        }
        is_over = progress.changed.wait_timeout(rt, is_over, left).0;
    }
    unreachable!()
}

#[derive(Drop)]
struct WatchOver<R: Waits, W: Work> {
    rt: R,
    progress: Arc<Progress>,
    began: Instant,
    stuck: W,
}

impl<R: Waits, W: Work<Answer = ()> + Drop> Work for WatchOver<R, W> {
    type Answer = ();

    fn work(self) {
        let WatchOver {
            rt,
            progress,
            began,
            stuck,
        } = self;
        if !watch_over(&rt, &progress, began) {
            stuck.work();
        }
    }
}

/// Starts a watchdog, which does `stuck` if for 50 seconds nothing is reported.
pub fn start_watchdog_with<R, W>(rt: R, alloc: Global, stuck: W) -> Result<Watchdog, Fail>
where
    R: Waits + Threads + Send + Sync + 'static,
    W: Work<Answer = ()> + Send + Drop + 'static,
{
    let began = Instant::now(&rt)?;
    let progress = Arc::new(
        alloc,
        Progress {
            steps: AtomicU64::new(0),
            is_over: Mutex::new(false),
            changed: Condvar::new(),
        },
    )?;
    let seen = progress.clone()?;
    let start_watchdog = WatchOver {
        rt,
        progress: seen,
        began,
        stuck,
    };
    let thread = spawn_work(&rt, start_watchdog)?;
    Ok(Watchdog { progress, thread })
}

impl Progress {
    /// Tells the watchdog that something happened.
    pub fn report(&self) {
        self.steps.fetch_add(1, Ordering::Relaxed);
    }
}

impl Watchdog {
    /// Where the threads of the test report.
    pub fn progress(&self) -> &Progress {
        &self.progress
    }

    /// The same, for a thread that no scope ends.
    pub fn shared(&self) -> Result<Arc<Progress>, AllocError> {
        self.progress.clone()
    }

    /// The test is over.
    pub fn end<R: Waits + Threads>(self, rt: &R) {
        let Watchdog { progress, thread } = self;
        *progress.is_over.lock(rt) = true;
        progress.changed.notify_one();
        thread.join(rt);
    }
}
