//! The shapes of a bare channel with a crowd of parked receivers or blocked sends, left as large.
use crate::arguments::Shape;
use crate::bench::{Bench, begin_anew};
use flume::Waits;
use flume::chan::Chan;
use flume::step::{Kind, Reply};
use std::mem::forget;
use std::time::Instant;

impl<R: Waits> Bench<R> {
    pub(crate) fn crowd(&self, shape: Shape, start: &mut Instant) -> usize {
        let mut chan = Chan::new(self.alloc, Some(0));
        let sum = self.operate_on(&mut chan, shape, start);
        forget(chan);
        sum
    }

    fn operate_on(&self, chan: &mut Chan<usize, ()>, shape: Shape, start: &mut Instant) -> usize {
        let standing = self.capacity.unwrap_or(0);
        gather(chan, shape, standing);
        begin_anew(&self.rt, start);
        operate(chan, shape, standing, self.messages)
    }
}

fn gather(chan: &mut Chan<usize, ()>, shape: Shape, standing: usize) {
    for number in 0..standing {
        let _ = joins(chan, shape, number);
    }
}

fn operate(chan: &mut Chan<usize, ()>, shape: Shape, standing: usize, operations: usize) -> usize {
    let mut sum = 0usize;
    for number in 0..operations {
        if is_done(chan, shape, standing, number) {
            sum = sum.wrapping_add(number);
        }
    }
    sum
}

fn joins(chan: &mut Chan<usize, ()>, shape: Shape, number: usize) -> bool {
    let reply = match shape {
        Shape::CrowdCancel => chan.send(number, ()),
        _ => chan.recv(Kind::Block, ()),
    };
    matches!(reply, Reply::Pending(_) | Reply::Parked(_))
}

fn is_done(chan: &mut Chan<usize, ()>, shape: Shape, standing: usize, number: usize) -> bool {
    match shape {
        Shape::CrowdPoll => waits_on(chan, middle(standing)),
        Shape::CrowdRandom => waits_on(chan, random_ticket(standing, number)),
        Shape::CrowdSend => passes(chan, number) && joins(chan, shape, number),
        _ => {
            let ticket = middle(standing).wrapping_add(number as u64);
            leaves(chan, shape, ticket) && joins(chan, shape, number)
        }
    }
}

/// If those in the middle leave and others come, the front half stays.
fn middle(standing: usize) -> u64 {
    (standing / 2).wrapping_add(1) as u64
}

fn random_ticket(standing: usize, number: usize) -> u64 {
    let spread = number.wrapping_mul(0x9E37_79B9_7F4A_7C15) >> 32;
    (spread.wrapping_mul(standing) >> 32).wrapping_add(1) as u64
}

fn waits_on(chan: &mut Chan<usize, ()>, ticket: u64) -> bool {
    matches!(chan.poll(ticket, None), Reply::Waiting)
}

fn leaves(chan: &mut Chan<usize, ()>, shape: Shape, ticket: u64) -> bool {
    let reply = match shape {
        Shape::CrowdCancel => chan.withdraw_send(ticket),
        _ => chan.withdraw(ticket),
    };
    matches!(reply, Reply::Returned { .. } | Reply::Gone { .. })
}

fn passes(chan: &mut Chan<usize, ()>, message: usize) -> bool {
    let Reply::Sent { filled: Some(_) } = chan.try_send(message) else {
        return false;
    };
    let Some(ticket) = chan.next_due() else {
        return false;
    };
    matches!(chan.poll(ticket, None), Reply::Got(got) if got == message)
}
