//! The shapes of selections over four channels.
use crate::bench::{Bench, Ends};
use crate::fault::Fault;
use crate::threads::Crew;
use flume::error::RecvError;
use flume::select::{Arm, Arms};
use flume::{Receiver, Runtime, Selector, Waits};
use std::alloc::Global;
use std::random::RandomSource;

const FOUR: usize = 4;

impl<R: Runtime + RandomSource> Bench<R> {
    /// Four threads send, each into a channel of its own, and this one receives all by selections.
    pub(crate) fn select_rx(&self) -> Result<usize, Fault> {
        let each = self.messages / FOUR;
        let channels = self.open_four();
        let mut threads = Vec::new(self.alloc);
        for ends in &channels {
            self.start_each(&mut threads, ends, Crew::of(1), each)?;
        }
        let sum = select_each(&channels, each.saturating_mul(FOUR));
        Ok(sum.wrapping_add(self.join_all(threads)))
    }
}

impl<R: Waits> Bench<R> {
    pub(crate) fn select_seq(&self) -> usize {
        select_in_turn(&self.open_four(), self.messages)
    }

    fn open_four(&self) -> Vec<Ends<R>> {
        let mut channels = Vec::new(self.alloc);
        for _ in 0..FOUR {
            if channels.try_reserve(1).is_err() {
                return channels;
            }
            if let Ok(ends) = self.open() {
                channels.push_reserved(ends);
            }
        }
        channels
    }
}

fn select_in_turn<R: Waits>(channels: &[Ends<R>], messages: usize) -> usize {
    let mut sum = 0usize;
    for message in 0..messages {
        if let Some(ends) = channels.get(message % FOUR)
            && ends.tx.send(message).is_ok()
        {
            sum = sum.wrapping_add(select(channels));
        }
    }
    sum
}

fn select_each<R: Waits>(channels: &[Ends<R>], messages: usize) -> usize {
    let mut sum = 0usize;
    for _ in 0..messages {
        sum = sum.wrapping_add(select(channels));
    }
    sum
}

fn select<R: Waits>(channels: &[Ends<R>]) -> usize {
    match channels {
        [one, two, three, four] => {
            let selector = Selector::new().recv(&one.rx, message_or_none);
            (&two.rx, (&three.rx, (&four.rx, ()))).select(selector)
        }
        _ => 0,
    }
}

/// Receivers that are added to a selector, an arm each. Of the last arm only that it is one is
/// known: the whole type takes the prover far longer.
trait MoreArms<'a> {
    fn select<L: Arms<usize, Global> + Drop, C: Arm<usize, Global> + Drop>(
        self,
        selector: Selector<'a, usize, (L, C)>,
    ) -> usize
        requires before { L.can_map (L.mappers selector.arms.0) }
        requires last { C.can_map (C.mapper selector.arms.1) };
}

impl<'a> MoreArms<'a> for () {
    fn select<L: Arms<usize, Global> + Drop, C: Arm<usize, Global> + Drop>(
        self,
        selector: Selector<'a, usize, (L, C)>,
    ) -> usize {
        selector.wait().unwrap_or(0)
    }
}

impl<'a, R: Waits, M: MoreArms<'a>> MoreArms<'a> for (&'a Receiver<usize, R>, M) {
    fn select<L: Arms<usize, Global> + Drop, C: Arm<usize, Global> + Drop>(
        self,
        selector: Selector<'a, usize, (L, C)>,
    ) -> usize {
        let (next, more) = self;
        more.select(selector.recv(next, message_or_none))
    }
}

fn message_or_none(answer: Result<usize, RecvError>) -> usize {
    answer.unwrap_or(0)
}
