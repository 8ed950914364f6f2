//! A place for the value of each job.
ghost use Rattle.std.specs.Prelude.{◌≡◌, ◌≢◌, ℕ, ◌<◌, map, length, Some, None};
ghost use Rattle.std.specs.Prelude.{IfOk, IfErr, OnOk, IfSome, IfNone};
ghost use Rattle.std.specs.List.{slice_get};
ghost use Rattle.parallel_map.specs.SlotValues.{HoldRightValues, held, Places, IsRefused};
ghost use Rattle.parallel_map.specs.RightAnswers.{IsTo};

use crate::answer::Answer;
use crate::error::WorkError;
use crate::work::Work;
use std::alloc::{AllocError, Global};

#[derive(Drop)]
pub(crate) struct Slots<'a, W: Work> {
    pub(crate) jobs: &'a [W::Job],
    pub(crate) values: Vec<Option<W::Value>>,
    ghost right_values: { HoldRightValues (map W.meaning jobs.now) values.items },
}

impl<'a, W: Work> Slots<'a, W> {
    pub(crate) fn new(alloc: Global, jobs: &'a [W::Job]) -> Result<Self, AllocError>
        ensures jobs { IfOk result (λ slots. slots.jobs.now ≡ jobs.now) }
        ensures empty { IfOk result (λ slots. (k : ℕ) → held slots.values.items k ≡ 0) }
    {
        let values = jobs.iter().map(|_| None).collect(alloc)?;
        Ok(Slots { jobs, values })
    }

    pub(crate) fn put(&mut self, answer: Answer<W>) -> Result<(), WorkError>
        ensures jobs { self.new.jobs.now ≡ self.old.jobs.now }
        ensures value { OnOk result (slice_get (map W.meaning self.old.jobs.now) answer.number
            ≡ Some answer.value) }
        ensures right { OnOk result (IsTo self.old.jobs.now (answer.number, answer.job)) }
        ensures places { OnOk result (Places self.old.values.items answer.number
            self.new.values.items) }
        ensures is_refused { IfErr result (IsRefused self.old.jobs.now self.old.values.items
            (answer.number, answer.job)) }
    {
        let Answer { number, job, value } = answer;
        self.look(number, job)?;
        self.values[number] = Some(value);
        Ok(())
    }

    fn look(&self, number: usize, job: W::Job) -> Result<(), WorkError>
        ensures right { OnOk result (IsTo self.now.jobs.now (number, job)) }
        ensures empty { OnOk result (slice_get self.now.values.items number ≡ Some None) }
        ensures is_refused { IfErr result (IsRefused self.now.jobs.now self.now.values.items
            (number, job)) }
    {
        if number >= self.jobs.len() || self.jobs[number] != job {
            return Err(WorkError::Unknown(number));
        }
        if self.values[number].is_some() {
            return Err(WorkError::Doubled(number));
        }
        Ok(())
    }

    pub(crate) fn take(&mut self, number: usize) -> Option<W::Value>
        requires within { number < length self.old.jobs.now }
        ensures jobs { self.new.jobs.now ≡ self.old.jobs.now }
        ensures value { IfSome result (λ value.
            slice_get (map W.meaning self.old.jobs.now) number ≡ Some value) }
        ensures some { IfSome result (λ _. held self.old.values.items number ≡ 1) }
        ensures none { IfNone result (held self.old.values.items number ≡ 0) }
        ensures others { (k : ℕ) → k ≢ number
            → held self.new.values.items k ≡ held self.old.values.items k }
    {
        self.values[number].take()
    }
}
