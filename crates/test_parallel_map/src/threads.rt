//! How many threads work.
ghost use Rattle.std.proofs.Common.{rules};

use flume::{Receiver, Sender, Waits};
use parallel_map::{Work, parallel_map};
use std::sync::atomic::{AtomicU64, Ordering};
use std::test::Fail;
use std::time::Duration;

// Job 0 sends to job 1 on a channel of capacity 0: both have to run at once.
#[derive(Drop)]
struct Meet<R: Waits> {
    tx: Sender<u64, R>,
    rx: Receiver<u64, R>,
    met: AtomicU64,
}

impl<R: Waits> Work for Meet<R> {
    type Job = u64;

    type Value = u64;

    ghost meaning = { λ n. n };

    ghost exact = { Prim.search rules };

    fn work(&self, job: u64) -> u64 {
        let minute = Duration::from_secs(60);
        let has_met = if job == 0 {
            self.tx.send_timeout(7, minute).is_ok()
        } else {
            self.rx.recv_timeout(minute).is_ok()
        };
        self.met.fetch_add(u64::from(has_met), Ordering::SeqCst);
        job
    }
}

#[test]
fn two_workers_are_two_threads(rt: HostRuntime) -> Result<(), Fail> {
    let (tx, rx) = flume::on(rt).bounded(0)?;
    let met = AtomicU64::new(0);
    let work = Meet { tx, rx, met };
    assert_eq!(rt;
        parallel_map(rt, &work, &[0, 1], 2)?.as_slice(),
        [0, 1].as_slice()
    );
    assert_eq!(rt; work.met.load(Ordering::SeqCst), 2);
    Ok(())
}
