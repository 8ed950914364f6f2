//! A slow judge of histories, written from the definitions on plain lists.
use crate::fixtures::{Pair, unwrap};
use flume_history::check::Checked;
use flume_model::step::{Kind, Reply, Step};
use std::alloc::Global;
use std::collections::VecDeque;
use std::process::Abort;

/// A queued or blocked message. Only one that was blocked has a ticket.
#[derive(Clone, Copy, Drop)]
pub(crate) struct Offer {
    message: u64,
    ticket: Option<u64>,
}

/// What a parked receiver got so far.
#[derive(Clone, Copy, Drop)]
pub(crate) enum ReceiverState {
    Waits,
    Woken,
    Filled(u64),
}

#[derive(Clone, Copy, Drop)]
pub(crate) struct Parked {
    ticket: u64,
    kind: Kind,
    pub(crate) state: ReceiverState,
}

#[derive(Drop)]
pub(crate) struct SlowJudge {
    pub(crate) capacity: Option<usize>,
    pub(crate) line: VecDeque<Offer>,
    // How many of the line's front are queued; the rest is blocked.
    pub(crate) queue_length: usize,
    pub(crate) parked: VecDeque<Parked>,
    pub(crate) live: VecDeque<u64>,
    next: u64,
    pub(crate) senders: usize,
    pub(crate) receivers: usize,
}

/// Whether a history is a run, or which step is the first that has an unlawful reply.
pub(crate) fn judge(
    rt: &impl Abort,
    alloc: Global,
    capacity: Option<usize>,
    history: &[Pair],
) -> Checked {
    let mut slow_judge = SlowJudge {
        capacity,
        line: VecDeque::new(alloc),
        queue_length: 0,
        parked: VecDeque::new(alloc),
        live: VecDeque::new(alloc),
        next: 1,
        senders: 1,
        receivers: 1,
    };
    for (place, (step, reply)) in history.iter().enumerate() {
        let is_lawful = match reply {
            Reply::NoMemory(back) => slow_judge.may_need_memory(step) && *back == message_of(step),
            _ => *reply == slow_judge.answer(rt, alloc, step),
        };
        if !is_lawful {
            return Checked::Breaks(place);
        }
    }
    Checked::Run
}

pub(crate) fn message_of(step: &Step<u64>) -> Option<u64> {
    match step {
        Step::TrySend(message) | Step::Send(message) => Some(*message),
        _ => None,
    }
}

impl SlowJudge {
    pub(crate) fn is_open(&self) -> bool {
        self.senders.min(self.receivers) > 0
    }

    fn may_need_memory(&self, step: &Step<u64>) -> bool {
        let is_left = self.next < u64::MAX;
        let some_blocked = self.queue_length < self.line.len();
        match step {
            Step::TrySend(_) => self.is_open() && self.takes_in(),
            Step::Send(_) => self.is_open() && (self.takes_in() || is_left),
            Step::TryRecv => some_blocked,
            Step::Recv(_) => some_blocked || self.line.is_empty() && self.is_open() && is_left,
            Step::Poll(ticket) => self.tries_again(*ticket) && some_blocked,
            Step::Drain => self.queue_length > 0,
            _ => false,
        }
    }

    fn takes_in(&self) -> bool {
        for receiver in &self.parked {
            if matches!(receiver.state, ReceiverState::Waits) {
                return true;
            }
        }
        self.queue_length < self.capacity.unwrap_or(usize::MAX)
    }

    fn tries_again(&self, ticket: u64) -> bool {
        match self.parked.get(self.place_of(ticket)) {
            Some(receiver) => !matches!(receiver.kind, Kind::Block),
            None => false,
        }
    }

    fn place_of(&self, ticket: u64) -> usize {
        for (place, receiver) in self.parked.iter().enumerate() {
            if receiver.ticket == ticket {
                return place;
            }
        }
        self.parked.len()
    }

    // Makes the step, and returns its lawful reply other than `NoMemory`.
    fn answer(&mut self, rt: &impl Abort, alloc: Global, step: &Step<u64>) -> Reply<u64> {
        match step {
            Step::TrySend(message) => self.offer(rt, *message, false),
            Step::Send(message) => self.offer(rt, *message, true),
            Step::PollSend(ticket) => self.poll_send(*ticket, false),
            Step::WithdrawSend(ticket) => self.poll_send(*ticket, true),
            Step::TryRecv => self.receive(Reply::Empty),
            Step::Recv(kind) => match self.receive(Reply::Waiting) {
                Reply::Waiting => self.park(rt, *kind),
                reply => reply,
            },
            Step::Poll(ticket) => self.poll(rt, *ticket),
            Step::Withdraw(ticket) => self.withdraw(*ticket),
            Step::Drain => self.drain(rt, alloc),
            Step::SetCapacity(capacity) => self.set_capacity(*capacity),
            _ => self.count(step),
        }
    }

    fn offer(&mut self, rt: &impl Abort, message: u64, blocks: bool) -> Reply<u64> {
        if !self.is_open() {
            return Reply::Closed(message);
        }
        let takes_in = self.takes_in();
        match (takes_in, blocks, self.next) {
            (true, _, _) => {}
            (_, false, _) => return Reply::Full(message),
            (_, _, u64::MAX) => return Reply::Spent(Some(message)),
            _ => {}
        }
        let ticket = (!takes_in).then_some(self.next);
        unwrap(rt, self.line.push_back(Offer { message, ticket }));
        if let Some(ticket) = ticket {
            unwrap(rt, self.live.push_back(ticket));
            self.next = self.next.saturating_add(1);
            return Reply::Pending(ticket);
        }
        self.queue_length = self.queue_length.saturating_add(1);
        let filled = self.wake_round();
        Reply::Sent { filled }
    }

    // Wakes streams up to the first waiting receiver that is none. That one is woken too, or filled
    // with the front if it blocks: then its ticket is returned.
    fn wake_round(&mut self) -> Option<u64> {
        let front = self.line.front()?.message;
        for receiver in &mut self.parked {
            match (receiver.state, receiver.kind) {
                (ReceiverState::Waits, Kind::Stream) => receiver.state = ReceiverState::Woken,
                (ReceiverState::Waits, Kind::Plain | Kind::Arm) => {
                    receiver.state = ReceiverState::Woken;
                    return None;
                }
                (ReceiverState::Waits, Kind::Block) => {
                    receiver.state = ReceiverState::Filled(front);
                    let ticket = receiver.ticket;
                    self.line.pop_front();
                    self.queue_length = self.queue_length.saturating_sub(1);
                    return Some(ticket);
                }
                _ => {}
            }
        }
        None
    }

    fn poll_send(&mut self, ticket: u64, withdraws: bool) -> Reply<u64> {
        let Some(at) = self.live.iter().position(|live| *live == ticket) else {
            return Reply::NoTicket;
        };
        let place = self.place_of_blocked(ticket);
        if place < self.line.len() && self.is_open() && !withdraws {
            return Reply::Waiting;
        }
        self.live.remove(at);
        let closed = !self.is_open();
        match self.line.remove(place) {
            Some(offer) => Reply::Returned {
                message: offer.message,
                closed,
            },
            None => Reply::Accepted,
        }
    }

    fn place_of_blocked(&self, ticket: u64) -> usize {
        for (place, offer) in self.line.iter().enumerate() {
            if place >= self.queue_length && offer.ticket == Some(ticket) {
                return place;
            }
        }
        self.line.len()
    }

    pub(crate) fn most_queued(&self) -> usize {
        self.line.len().min(self.capacity.unwrap_or(usize::MAX))
    }

    // Receives; the last reply is for an open channel without a message.
    fn receive(&mut self, otherwise: Reply<u64>) -> Reply<u64> {
        match self.line.pop_front() {
            Some(offer) => {
                self.queue_length = self.queue_length.saturating_sub(1).max(self.most_queued());
                Reply::Got(offer.message)
            }
            None if self.is_open() => otherwise,
            None => Reply::Ended,
        }
    }

    fn park(&mut self, rt: &impl Abort, kind: Kind) -> Reply<u64> {
        let ticket = self.next;
        if ticket == u64::MAX {
            return Reply::Spent(None);
        }
        self.next = self.next.saturating_add(1);
        let state = ReceiverState::Waits;
        unwrap(
            rt,
            self.parked.push_back(Parked {
                ticket,
                kind,
                state,
            }),
        );
        Reply::Parked(ticket)
    }

    // A woken receiver that finds nothing waits again, behind all others.
    fn poll(&mut self, rt: &impl Abort, ticket: u64) -> Reply<u64> {
        let place = self.place_of(ticket);
        let Some(receiver) = self.parked.get(place).copied() else {
            return Reply::NoTicket;
        };
        let reply = match (receiver.state, receiver.kind) {
            (ReceiverState::Filled(message), _) => Reply::Got(message),
            (ReceiverState::Waits, Kind::Block) => Reply::Waiting,
            _ => self.receive(Reply::Waiting),
        };
        match (&reply, receiver.state) {
            (Reply::Waiting, ReceiverState::Waits) => {}
            (Reply::Waiting, _) => {
                self.parked.remove(place);
                let state = ReceiverState::Waits;
                unwrap(rt, self.parked.push_back(Parked { state, ..receiver }));
            }
            _ => {
                self.parked.remove(place);
            }
        }
        reply
    }

    // A receiver that blocks takes the front with it; a woken one passes its wake on.
    fn withdraw(&mut self, ticket: u64) -> Reply<u64> {
        let place = self.place_of(ticket);
        let Some(receiver) = self.parked.remove(place) else {
            return Reply::NoTicket;
        };
        let closed = !self.is_open();
        let filled = None;
        match (receiver.state, receiver.kind) {
            (ReceiverState::Filled(message), _) => Reply::Got(message),
            (_, Kind::Block) => match self.receive(Reply::Waiting) {
                Reply::Got(message) => Reply::Got(message),
                _ => Reply::Gone { closed, filled },
            },
            (ReceiverState::Woken, _) if self.queue_length > 0 => {
                let filled = self.wake_round();
                Reply::Gone { closed, filled }
            }
            _ => Reply::Gone { closed, filled },
        }
    }

    fn drain(&mut self, rt: &impl Abort, alloc: Global) -> Reply<u64> {
        let mut queue = Vec::new(alloc);
        for _ in 0..self.queue_length {
            if let Some(offer) = self.line.pop_front() {
                unwrap(rt, queue.push(offer.message));
            }
        }
        self.queue_length = self.most_queued();
        Reply::Drained(queue)
    }
}
