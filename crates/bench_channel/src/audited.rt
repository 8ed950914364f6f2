//! The shapes of an audited channel.
ghost use Rattle.std.specs.Prelude.{◌≡◌};

use crate::bench::{Bench, begin_anew};
use crate::fault::Fault;
use flume::audit::Audit;
use flume::seat::Seat;
use flume::step::{Reply, Step};
use flume::{Checked, Waits, check_history};
use std::marker::Brand;
use std::mem::forget;
use std::sync::ledger::{Blank, Ledger};
use std::time::Instant;

fn pass_each<L: Ledger, R: Waits>(
    audit: &Audit<usize, L, R>,
    seat: &mut Seat<usize, L>,
    messages: usize,
) -> usize {
    let mut sum = 0usize;
    for message in 0..messages {
        let _ = audit.step(seat, Step::TrySend(message));
        if let Ok(Reply::Got(message)) = audit.step(seat, Step::TryRecv) {
            sum = sum.wrapping_add(message);
        }
    }
    sum
}

impl<R: Waits> Bench<R> {
    /// `try_pair` as steps of an audited channel.
    pub(crate) fn audit_pair(&self) -> Result<usize, Fault> {
        self.audit_pair_under::<Brand>(Blank::new(1))
    }

    fn audit_pair_under<L: Ledger>(&self, blank: Blank) -> Result<usize, Fault>
        requires name { blank.name ≡ L.name }
        requires parts { blank.parts ≡ L.parts }
        requires one_each { blank.parts ≡ 1 }
    {
        let made = Audit::<usize, L, R>::new(self.rt, self.alloc, blank, self.capacity, 1);
        let Ok((audit, mut seats)) = made else {
            return Err(Fault::NoMemory);
        };
        Ok(match seats.first_mut() {
            Some(seat) => pass_each(&audit, seat, self.messages),
            None => 0,
        })
    }

    /// The history of `try_pair` checked. Making it isn't timed.
    pub(crate) fn check_pair(&self, start: &mut Instant) -> usize {
        let mut history = Vec::new(self.alloc);
        let sum = record_each(&mut history, self.messages);
        begin_anew(&self.rt, start);
        let checked = check_history(self.alloc, self.capacity, &history);
        forget(history);
        match checked {
            Checked::Run => sum,
            _ => 0,
        }
    }
}

fn record_each(history: &mut Vec<(Step<usize>, Reply<usize>)>, messages: usize) -> usize {
    let mut sum = 0usize;
    for message in 0..messages {
        if history.try_reserve(2).is_err() {
            return 0;
        }
        history.push_reserved((Step::TrySend(message), Reply::Sent { filled: None }));
        history.push_reserved((Step::TryRecv, Reply::Got(message)));
        sum = sum.wrapping_add(message);
    }
    sum
}
