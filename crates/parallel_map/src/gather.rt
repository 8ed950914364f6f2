//! What is made of the answers to jobs.
ghost use Rattle.std.specs.Prelude.{◌≡◌, List, IfOk, IfErr, map};
ghost use Rattle.std.specs.Iterator.{IsFinite};
ghost use Rattle.parallel_map.specs.RightAnswers.{CanBring};
ghost use Rattle.parallel_map.specs.TruePlaces.{IsFound};

use crate::answer::Answer;
use crate::answers::{collect, position};
use crate::error::WorkError;
use crate::work::Work;
use std::alloc::Global;

pub(crate) trait Gather<W: Work> {
    type Result: Drop;

    ghost is_right: { List W.Job → Self.Result → Type 0 };

    /// It may stop before the answers end.
    fn gather<I: Iterator<Item = Answer<W>> + Drop>(
        &self,
        alloc: Global,
        jobs: &[W::Job],
        answers: I,
    ) -> Result<Self::Result, WorkError>
        requires can { I.can_next answers }
        requires ends { IsFinite (I.remaining answers) }
        ensures right { IfOk result (is_right jobs.now) }
        ensures error { IfErr result (CanBring jobs.now) };
}

pub(crate) struct Values;

impl<W: Work> Gather<W> for Values {
    type Result = Vec<W::Value>;

    ghost is_right = { λ jobs values. values.items ≡ map W.meaning jobs };

    fn gather<I: Iterator<Item = Answer<W>> + Drop>(
        &self,
        alloc: Global,
        jobs: &[W::Job],
        answers: I,
    ) -> Result<Vec<W::Value>, WorkError> {
        collect(alloc, jobs, answers)
    }
}

pub(crate) struct Place;

impl<W: Work<Value = bool>> Gather<W> for Place {
    type Result = Option<usize>;

    ghost is_right = { λ jobs found. IsFound (map W.meaning jobs) found };

    fn gather<I: Iterator<Item = Answer<W>> + Drop>(
        &self,
        alloc: Global,
        jobs: &[W::Job],
        answers: I,
    ) -> Result<Option<usize>, WorkError> {
        position(alloc, jobs, answers)
    }
}
