//! What no clause says: right answers are taken, each job is done once, wrong answers are errors.
ghost use Rattle.std.specs.Prelude.{◌%◌, ◌==◌};
ghost use Rattle.std.proofs.Common.{rules};

use parallel_map::answers::collect;
use parallel_map::{Answer, Work, WorkError, parallel_map, position_any};
use std::alloc::{AllocError, Global};
use std::sync::atomic::{AtomicU64, Ordering};
use std::test::Fail;

// The remainder of a division by 7. It counts its calls.
#[derive(Drop)]
struct Remainder {
    calls: AtomicU64,
}

fn not_called() -> Remainder {
    Remainder {
        calls: AtomicU64::new(0),
    }
}

impl Work for Remainder {
    type Job = u64;

    type Value = u64;

    ghost meaning = { λ n. n % 7 };

    ghost exact = { Prim.search rules };

    fn work(&self, job: u64) -> u64 {
        self.calls.fetch_add(1, Ordering::SeqCst);
        job % 7
    }
}

struct IsNinety;

impl Work for IsNinety {
    type Job = u64;

    type Value = bool;

    ghost meaning = { λ n. n == 90 };

    ghost exact = { Prim.search rules };

    fn work(&self, job: u64) -> bool {
        job == 90
    }
}

fn numbers(alloc: Global, end: u64) -> Result<Vec<u64>, AllocError> {
    let mut numbers = Vec::new(alloc);
    for number in 0..end {
        numbers.push(number)?;
    }
    Ok(numbers)
}

#[test]
fn any_number_of_workers_give_what_a_loop_gives_and_do_each_job_once(
    rt: HostRuntime,
) -> Result<(), Fail> {
    let jobs = numbers(rt.alloc(), 100)?;
    let mut rests = Vec::new(rt.alloc());
    for job in &jobs {
        rests.push(*job % 7)?;
    }
    for workers in [0, 1, 2, 5, 100] {
        let work = not_called();
        let values = parallel_map(rt, &work, &jobs, workers)?;
        assert_eq!(rt; values, rests, "{workers} workers");
        assert_eq!(rt; work.calls.load(Ordering::SeqCst), 100);
    }
    Ok(())
}

#[test]
fn a_search_finds_the_one_job_at_each_place(rt: HostRuntime) -> Result<(), Fail> {
    let mut jobs = numbers(rt.alloc(), 100)?;
    let without = numbers(rt.alloc(), 90)?;
    for workers in [1, 2, 5] {
        assert_eq!(rt; position_any(rt, &IsNinety, &jobs, workers)?, Some(90));
        assert_eq!(rt; position_any(rt, &IsNinety, &without, workers)?, None);
        // The search ends at the first answer, while jobs are left.
        assert!(rt; position_any(rt, &IsNinety, &[90; 100], workers)?.is_some());
    }
    jobs.reverse();
    assert_eq!(rt; position_any(rt, &IsNinety, &jobs, 2)?, Some(9));
    Ok(())
}

fn collect_answers(
    alloc: Global,
    answers_to: &[(usize, u64)],
) -> Result<Result<Vec<u64>, WorkError>, AllocError> {
    let mut answers = Vec::new(alloc);
    for (number, job) in answers_to {
        answers.push(Answer::of(&not_called(), *number, *job))?;
    }
    Ok(collect(alloc, &[10, 20, 30], answers.into_iter()))
}

#[test]
fn answers_that_are_mixed_up_missing_or_doubled_are_distinguished(
    rt: HostRuntime,
) -> Result<(), Fail> {
    let alloc = rt.alloc();
    let rests = [3, 6, 2].to_vec(alloc)?;
    assert_eq!(rt;
        collect_answers(alloc, &[(2, 30), (0, 10), (1, 20)])?,
        Ok(rests)
    );
    assert_eq!(rt;
        collect_answers(alloc, &[(2, 30), (0, 10)])?,
        Err(WorkError::Missing(1))
    );
    let doubled = collect_answers(alloc, &[(0, 10), (2, 30), (2, 30)])?;
    assert_eq!(rt; doubled, Err(WorkError::Doubled(2)));
    // Under the number of another job, past the end, and of another list.
    for (number, job) in [(1, 10), (3, 10), (0, 11)] {
        let unknown = collect_answers(alloc, &[(2, 30), (number, job)])?;
        assert_eq!(rt; unknown, Err(WorkError::Unknown(number)));
    }
    Ok(())
}
