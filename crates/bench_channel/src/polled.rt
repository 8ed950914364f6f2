//! The shapes whose futures an executor runs.
use crate::bench::{Bench, Ends};
use crate::fault::Fault;
use crate::loops::{Calls, Loop, RECEIVES, SENDS, SENDS_FIRST};
use crate::threads::Work;
use flume::Runtime;
use futures::Future;
use futures::executor::block_on;
use futures::future::join;
use std::mem::swap;
use std::random::RandomSource;

impl<R: Runtime + RandomSource> Bench<R> {
    pub(crate) fn async_pair(&self) -> Result<usize, Fault> {
        to_and_fro(&self.rt, &self.open()?, SENDS_FIRST, self.messages)
    }

    pub(crate) fn async_join(&self) -> Result<usize, Fault> {
        let ends = self.open()?;
        let sends = Loop::new(&ends, SENDS, self.messages);
        let receives = Loop::new(&ends, RECEIVES, self.messages);
        second_of(&self.rt, sends, receives)
    }

    /// Half of the messages sent to a second thread, which sends each back over a second channel.
    pub(crate) fn async_ping(&self) -> Result<usize, Fault> {
        let (mut here, mut there) = (self.open()?, self.open()?);
        swap(&mut here.rx, &mut there.rx);
        self.ping(&here, there)
    }

    fn ping(&self, here: &Ends<R>, there: Ends<R>) -> Result<usize, Fault> {
        let each = self.messages / 2;
        let mut threads = Vec::new(self.alloc);
        self.start(&mut threads, Work::Echoes(there), each)?;
        let sum = to_and_fro(&self.rt, here, SENDS_FIRST, each)?;
        Ok(sum.wrapping_add(self.join_all(threads)))
    }
}

/// The sum of this many messages, each sent, and one received before the next.
pub(crate) fn to_and_fro<R: Runtime + RandomSource>(
    rt: &R,
    ends: &Ends<R>,
    calls: Calls,
    messages: usize,
) -> Result<usize, Fault> {
    match block_on(rt, Loop::new(ends, calls, messages.saturating_mul(2))) {
        Ok(sum) => Ok(sum),
        Err(_) => Err(Fault::NoExecutor),
    }
}

fn second_of<R, A, B>(rt: &R, first: A, second: B) -> Result<usize, Fault>
where
    R: Runtime + RandomSource,
    A: Future<Output = usize>,
    B: Future<Output = usize>,
    requires first { A.can_poll first }
    requires second { B.can_poll second }
{
    match block_on(rt, join(first, second)) {
        Ok((_, sum)) => Ok(sum),
        Err(_) => Err(Fault::NoExecutor),
    }
}
