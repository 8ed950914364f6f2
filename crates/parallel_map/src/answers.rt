//! The result, from answers that come in any order.
ghost use Rattle.std.specs.Prelude.{◌≡◌, List, IfOk, IfErr, map};
ghost use Rattle.std.specs.Iterator.{IsFinite, AlwaysYields};
ghost use Rattle.parallel_map.specs.RightAnswers.{Brings, AreComplete};
ghost use Rattle.parallel_map.specs.SlotValues.{Lacks};
ghost use Rattle.parallel_map.specs.TruePlaces.{IsFound};

use crate::answer::Answer;
use crate::error::WorkError;
use crate::slots::Slots;
use crate::work::Work;
use std::alloc::Global;

/// The values of all jobs, in the order of the jobs. Each answer is compared with the list, so the
/// iterator needn't be trusted. It stops at the first that is `Unknown` or `Doubled`. `Missing` has
/// the first job without an answer.
/// ```
/// let mixed = [Answer::of(&Square, 1, 3), Answer::of(&Square, 0, 2)];
/// let answers = Vec::from_array(alloc, mixed)?;
/// let values = collect(alloc, &[2, 3], answers.into_iter())?;
/// assert_eq!(rt; values.as_slice(), [4, 9].as_slice());
/// ```
pub fn collect<W: Work, I: Iterator<Item = Answer<W>> + Drop>(
    alloc: Global,
    jobs: &[W::Job],
    answers: I,
) -> Result<Vec<W::Value>, WorkError>
    requires can { I.can_next answers }
    requires ends { IsFinite (I.remaining answers) }
    ensures values { IfOk result (λ values. values.items ≡ map W.meaning jobs.now) }
    ensures error { IfErr result (Brings I.next_gives (λ answer. (answer.number, answer.job))
        jobs.now answers) }
    ensures only_no_memory { (all : List _)
        → AlwaysYields I.next_gives (λ answer. answer) answers all
        → AreComplete jobs.now (map (λ answer. (answer.number, answer.job)) all)
        → IfErr result (λ error. error ≡ WorkError.NoMemory) }
{
    let mut slots = Slots::new(alloc, jobs)?;
    for answer in answers {
        slots.put(answer)?;
    }
    in_order(alloc, slots)
}

/// The number of the job of the first answer with the value `true`. `None`: no job has this value.
/// The errors are those of `collect`.
/// ```
/// let answers = Vec::from_array(alloc, [Answer::of(&IsEven, 1, 8)])?;
/// let found = position(alloc, &[7, 8, 9], answers.into_iter())?;
/// assert_eq!(rt; found, Some(1));
/// ```
pub fn position<W: Work<Value = bool>, I: Iterator<Item = Answer<W>> + Drop>(
    alloc: Global,
    jobs: &[W::Job],
    answers: I,
) -> Result<Option<usize>, WorkError>
    requires can { I.can_next answers }
    requires ends { IsFinite (I.remaining answers) }
    ensures found { IfOk result (IsFound (map W.meaning jobs.now)) }
    ensures error { IfErr result (Brings I.next_gives (λ answer. (answer.number, answer.job))
        jobs.now answers) }
    ensures only_no_memory { (all : List _)
        → AlwaysYields I.next_gives (λ answer. answer) answers all
        → AreComplete jobs.now (map (λ answer. (answer.number, answer.job)) all)
        → IfErr result (λ error. error ≡ WorkError.NoMemory) }
{
    let mut slots = Slots::new(alloc, jobs)?;
    for answer in answers {
        let (number, found) = (answer.number, answer.value);
        slots.put(answer)?;
        if found {
            return Ok(Some(number));
        }
    }
    let values = in_order(alloc, slots)?;
    Ok(first_true(&values))
}

#[tactic(auto, using(crate::proofs::PlaceLemmas::take_found))]
fn in_order<W: Work>(alloc: Global, slots: Slots<'_, W>) -> Result<Vec<W::Value>, WorkError>
    ensures values { IfOk result (λ values. values.items ≡ map W.meaning slots.entry.jobs.now) }
    ensures lacks { IfErr result (Lacks slots.entry.jobs.now slots.entry.values.items) }
{
    let mut slots = slots;
    let mut values = Vec::new(alloc);
    for number in 0..slots.jobs.len() {
        match slots.take(number) {
            Some(value) => values.push(value)?,
            None => return Err(WorkError::Missing(number)),
        }
    }
    Ok(values)
}

fn first_true(values: &[bool]) -> Option<usize>
    ensures found { IsFound values.now result }
{
    values.iter().position(|value| *value)
}
