//! What a thread sends back.
ghost use Rattle.std.specs.Prelude.{◌≡◌};

use crate::work::Work;

/// A job, its number in the list, and its value: the type says that it is the value of this job.
/// ```
/// let answer = Answer::of(&Square, 0, 7);
/// assert_eq!(rt; (answer.number, answer.job, answer.value), (0, 7, 49));
/// ```
#[derive(Drop)]
pub struct Answer<W: Work> {
    pub number: usize,
    pub job: W::Job,
    pub value: W::Value,
    ghost right: { value ≡ W.meaning job },
}

impl<W: Work> Answer<W> {
    /// Does the job.
    /// ```
    /// Answer::of(&Square, 0, 7).value;   // 49
    /// ```
    pub fn of(work: &W, number: usize, job: W::Job) -> Self
        ensures number { result.number ≡ number }
        ensures job { result.job ≡ job }
    {
        Answer {
            number,
            job,
            value: work.work(job),
        }
    }
}
