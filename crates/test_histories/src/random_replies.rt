//! Random replies in place of others: of the same kind, or `NoMemory`.
use crate::fixtures::unwrap;
use crate::slow_judge::message_of;
use flume_model::step::{Reply, Step};
use std::alloc::Global;
use std::process::Abort;

#[derive(Drop)]
pub(crate) struct RandomReplies {
    pub(crate) state: u64,
}

impl RandomReplies {
    pub(crate) fn below(&mut self, bound: u64) -> u64 {
        self.state = self
            .state
            .wrapping_mul(6_364_136_223_846_793_005)
            .wrapping_add(1_442_695_040_888_963_407);
        (self.state >> 33).checked_rem(bound).unwrap_or(0)
    }

    fn other(&mut self, number: u64) -> u64 {
        number ^ self.below(7).wrapping_add(1)
    }

    fn other_filled(&mut self, filled: Option<u64>) -> Option<u64> {
        match filled {
            None => Some(self.below(8)),
            Some(_) if self.below(2) == 0 => None,
            Some(ticket) => Some(self.other(ticket)),
        }
    }

    fn other_capacity(&mut self, capacity: Option<usize>) -> Option<usize> {
        match capacity {
            None => Some(self.below(4) as usize),
            Some(_) if self.below(2) == 0 => None,
            Some(capacity) => Some(self.other(capacity as u64) as usize),
        }
    }

    // Replaces a message, or leaves it out. Of no messages it makes one.
    fn other_list(&mut self, rt: &impl Abort, alloc: Global, list: &[u64]) -> Vec<u64> {
        let place = self.below(list.len() as u64) as usize;
        let leaves_out = self.below(2) == 0;
        let mut others = Vec::new(alloc);
        if list.is_empty() {
            unwrap(rt, others.push(1));
        }
        for (number, &message) in list.iter().enumerate() {
            if number != place {
                unwrap(rt, others.push(message));
            } else if !leaves_out {
                unwrap(rt, others.push(self.other(message)));
            }
        }
        others
    }

    /// Another reply of the same kind. All that hold nothing are of one kind.
    pub(crate) fn other_reply(
        &mut self,
        rt: &impl Abort,
        alloc: Global,
        reply: &Reply<u64>,
    ) -> Reply<u64> {
        match reply {
            Reply::Sent { filled } => Reply::Sent {
                filled: self.other_filled(*filled),
            },
            Reply::Full(message) => Reply::Full(self.other(*message)),
            Reply::Closed(message) => Reply::Closed(self.other(*message)),
            Reply::Pending(ticket) => Reply::Pending(self.other(*ticket)),
            Reply::Returned { message, closed } => self.other_returned(*message, *closed),
            Reply::Got(message) => Reply::Got(self.other(*message)),
            Reply::Parked(ticket) => Reply::Parked(self.other(*ticket)),
            Reply::Gone { closed, filled } => self.other_gone(*closed, *filled),
            Reply::Drained(list) => Reply::Drained(self.other_list(rt, alloc, list)),
            Reply::Number(number) => Reply::Number(self.other(*number as u64) as usize),
            Reply::Flag(truth) => Reply::Flag(!*truth),
            Reply::Capacity(capacity) => Reply::Capacity(self.other_capacity(*capacity)),
            _ => self.other_plain(reply),
        }
    }

    fn other_returned(&mut self, message: u64, closed: bool) -> Reply<u64> {
        match self.below(2) {
            0 => Reply::Returned {
                message: self.other(message),
                closed,
            },
            _ => Reply::Returned {
                message,
                closed: !closed,
            },
        }
    }

    fn other_gone(&mut self, closed: bool, filled: Option<u64>) -> Reply<u64> {
        match self.below(2) {
            0 => Reply::Gone {
                closed: !closed,
                filled,
            },
            _ => Reply::Gone {
                closed,
                filled: self.other_filled(filled),
            },
        }
    }

    fn other_plain(&mut self, reply: &Reply<u64>) -> Reply<u64> {
        let random = plain(self.below(9));
        if random == *reply {
            return match reply {
                Reply::Done => Reply::NoEnd,
                _ => Reply::Done,
            };
        }
        random
    }

    /// `NoMemory` for this step. In one case of four the message that comes back is wrong.
    pub(crate) fn no_memory(&mut self, step: &Step<u64>) -> Reply<u64> {
        let back = message_of(step);
        if self.below(4) == 0 {
            return Reply::NoMemory(self.other_filled(back));
        }
        Reply::NoMemory(back)
    }
}

fn plain(number: u64) -> Reply<u64> {
    match number {
        0 => Reply::Accepted,
        1 => Reply::Waiting,
        2 => Reply::NoTicket,
        3 => Reply::Empty,
        4 => Reply::Ended,
        5 => Reply::Done,
        6 => Reply::NoEnd,
        7 => Reply::CountFull,
        _ => Reply::Unbounded,
    }
}
