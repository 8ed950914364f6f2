//! What is done for each job.
ghost use Rattle.std.specs.Prelude.{◌≡◌, true};

/// A kind of work. The value is a function of the job alone (`meaning`), as a number: what has
/// memory of its own, as a `Vec`, isn't determined by its job. Jobs that are equal by `==` have to
/// be the same (`exact`), which the prover finds for numbers.
/// ```
/// // The square of a number.
/// struct Square;
///
/// impl Work for Square {
///     type Job = u32;
///
///     type Value = u64;
///
///     ghost meaning = { λ n. n * n };
///
///     ghost exact = { Prim.search rules };
///
///     fn work(&self, job: u32) -> u64 {
///         u64::from(job) * u64::from(job)
///     }
/// }
/// ```
pub trait Work {
    type Job: Copy + Eq;

    type Value: Drop;

    ghost meaning: { Self.Job → Self.Value };

    /// The value of the job. Called by several threads at once.
    fn work(&self, job: Self::Job) -> Self::Value
        ensures value { result ≡ meaning job };

    ghost exact: { (one other : Self.Job) → Self.Job.eq one other ≡ true → one ≡ other };
}
