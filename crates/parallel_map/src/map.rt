//! Lists of jobs, done by threads.
ghost use Rattle.std.specs.Prelude.{◌≡◌, ◌≢◌, [], IfOk, IfErr, IsOk, Err, map};
ghost use Rattle.parallel_map.specs.RightAnswers.{CanBring};
ghost use Rattle.parallel_map.specs.TruePlaces.{IsFound};

use crate::error::WorkError;
use crate::gather::{Place, Values};
use crate::threads::by_threads;
use crate::work::Work;
use flume::Runtime;

/// The values of all jobs, in the order of the jobs, by this many threads, at least one, and
/// another one that hands out the jobs. All have ended when it returns. An empty list starts none;
/// any other may bring `NoThread`, since no contract says that a thread can be started.
/// ```
/// let squares = parallel_map(rt, &Square, &[1, 2, 3], 2)?;
/// assert_eq!(rt; squares.as_slice(), [1, 4, 9].as_slice());
/// ```
pub fn parallel_map<W: Work + Sync, R: Runtime>(
    rt: R,
    work: &W,
    jobs: &[W::Job],
    workers: usize,
) -> Result<Vec<W::Value>, WorkError>
where
    W::Job: Send + Sync,
    W::Value: Send,
    ensures values { IfOk result (λ values. values.items ≡ map W.meaning jobs.now) }
    ensures empty { jobs.now ≡ [] → IsOk result }
    ensures error { result ≢ Err WorkError.NoThread → IfErr result (CanBring jobs.now) }
{
    if jobs.is_empty() {
        return Ok(Vec::new(rt.alloc()));
    }
    by_threads(rt, work, jobs, workers, &Values)
}

/// The number of some job of the value `true`, if there is one, by threads as of `parallel_map`.
/// Once one is found the receiver is dropped, so that all threads end. The errors are those of
/// `parallel_map`.
/// ```
/// let found = position_any(rt, &IsEven, &[7, 8, 9], 2)?;
/// assert_eq!(rt; found, Some(1));
/// ```
pub fn position_any<W: Work<Value = bool> + Sync, R: Runtime>(
    rt: R,
    work: &W,
    jobs: &[W::Job],
    workers: usize,
) -> Result<Option<usize>, WorkError>
where
    W::Job: Send + Sync,
    ensures found { IfOk result (IsFound (map W.meaning jobs.now)) }
    ensures empty { jobs.now ≡ [] → IsOk result }
    ensures error { result ≢ Err WorkError.NoThread → IfErr result (CanBring jobs.now) }
{
    if jobs.is_empty() {
        return Ok(None);
    }
    by_threads(rt, work, jobs, workers, &Place)
}
