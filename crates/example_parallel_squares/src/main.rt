//! Three threads square numbers, and three look for a divisor. That the squares are right, and in
//! order, is proved, whatever the channels between the threads deliver.
#![tactic(auto)]

ghost use Rattle.std.specs.Prelude.{◌≡◌, ◌*◌, ◌%◌, ◌==◌, ◌&&◌, IfOk, map, not};
ghost use Rattle.std.proofs.Common.{rules};

use flume::Runtime;
use parallel_map::{Work, WorkError, parallel_map, position_any};
use std::io;

const WORKERS: usize = 3;

struct Square;

impl Work for Square {
    type Job = u32;

    type Value = u64;

    ghost meaning = { λ n. n * n };

    ghost exact = { Prim.search rules };

    fn work(&self, job: u32) -> u64 {
        u64::from(job) * u64::from(job)
    }
}

struct Divides;

impl Work for Divides {
    type Job = u64;

    type Value = bool;

    ghost meaning = { λ n. not (n == 0) && 8051 % n == 0 };

    ghost exact = { Prim.search rules };

    fn work(&self, job: u64) -> bool {
        job != 0 && 8051 % job == 0
    }
}

fn main(rt: HostRuntime) -> io::Result<()> {
    let squares = squares(rt, &[1, 2, 3, 4, 5, 6, 7, 8, 9, 10])?;
    println!(rt; "squares: {squares:?}")?;
    let mut candidates = Vec::new(rt.alloc());
    for number in 2..=90u64 {
        candidates.push(number)?;
    }
    let place = position_any(rt, &Divides, &candidates, WORKERS)?;
    let divisor = place.and_then(|place| candidates.get(place));
    println!(rt; "a divisor of 8051: {divisor:?}")
}

fn squares<R: Runtime>(rt: R, numbers: &[u32]) -> Result<Vec<u64>, WorkError>
    ensures squares { IfOk result (λ squares. squares.items ≡ map (λ n. n * n) numbers.now) }
{
    parallel_map(rt, &Square, numbers, WORKERS)
}
