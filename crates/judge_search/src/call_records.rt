//! When each call returns, and who receives its message, by the events.
use crate::configuration::{Configuration, OpenCall, ParkedReceive, Progress, Status};
use crate::places::call_at;
use crate::replies::message_at;
use judge_calls::call::{Answer, Call};
use judge_calls::event::Event;
use std::alloc::Allocator;

/// The place of no event.
pub const NEVER: usize = usize::MAX;

/// Places of events of a call, or `NEVER`.
#[derive(Clone, Copy, Debug, Drop)]
pub struct CallRecord {
    /// Where it returns.
    pub returned: usize,
    /// Where the receive of the message that it sends or receives begins.
    pub receive: usize,
    /// Where this receive returns.
    pub received: usize,
}

/// The record of each call, by the place at which it begins.
#[derive(Drop)]
pub struct CallRecords<A: Allocator> {
    records: Vec<CallRecord, A>,
    sends: Vec<usize, A>,
    open: Vec<(usize, usize), A>,
}

impl<A: Allocator + Copy> CallRecords<A> {
    /// `None` if an allocation failed. Of equal messages, the first sent counts as received first.
    pub fn new<T: Copy + Eq + Drop>(alloc: A, events: &[Event<T, A>]) -> Option<Self> {
        let mut records = CallRecords {
            records: Vec::new(alloc),
            sends: Vec::new(alloc),
            open: Vec::new(alloc),
        };
        for place in 0..events.len() {
            if !records.add(events, place) {
                return None;
            }
        }
        Some(records)
    }

    /// The record of the call that begins at a place.
    pub fn of(&self, place: usize) -> CallRecord {
        self.records.get(place).copied().unwrap_or(UNKNOWN)
    }

    fn add<T: Copy + Eq + Drop>(&mut self, events: &[Event<T, A>], place: usize) -> bool {
        if self.records.push(UNKNOWN).is_err() {
            return false;
        }
        match events.get(place) {
            Some(Event::Begins { thread, call }) => {
                (call.message().is_none() || self.sends.push(place).is_ok())
                    && self.open.push((*thread, place)).is_ok()
            }
            Some(Event::Returns { thread, answer }) => {
                if let Some(begin) = self.end(*thread) {
                    self.add_answer(events, begin, place, answer);
                }
                true
            }
            None => true,
        }
    }

    fn end(&mut self, thread: usize) -> Option<usize> {
        for index in 0..self.open.len() {
            if let Some((own, begin)) = self.open.get(index).copied() {
                if own == thread {
                    let _ = self.open.remove(index);
                    return Some(begin);
                }
            }
        }
        None
    }

    fn add_answer<T: Copy + Eq + Drop>(
        &mut self,
        events: &[Event<T, A>],
        begin: usize,
        place: usize,
        answer: &Answer<T, A>,
    ) {
        if let Some(record) = self.records.get_mut(begin) {
            record.returned = place;
        }
        match answer {
            Answer::Got(message) => {
                self.set_received(begin, begin, place);
                self.receive(events, begin, place, *message);
            }
            Answer::Drained(messages) => {
                for message in messages.as_slice() {
                    self.receive(events, begin, place, *message);
                }
            }
            _ => {}
        }
    }

    fn receive<T: Copy + Eq + Drop>(
        &mut self,
        events: &[Event<T, A>],
        begin: usize,
        place: usize,
        message: T,
    ) {
        for index in 0..self.sends.len() {
            if let Some(send) = self.sends.get(index).copied() {
                if message_at(events, send) == Some(message) {
                    let _ = self.sends.remove(index);
                    self.set_received(send, begin, place);
                    return;
                }
            }
        }
    }

    fn set_received(&mut self, of: usize, begin: usize, place: usize) {
        if let Some(record) = self.records.get_mut(of) {
            record.receive = begin;
            record.received = place;
        }
    }

    /// Whether a configuration before a place likely leads to no explanation: a receive has another
    /// message than it returns, a send another answer, or the messages are in another order.
    pub fn are_against<T: Copy + Eq + Drop>(
        &self,
        events: &[Event<T, A>],
        configuration: &Configuration<A>,
        place: usize,
    ) -> bool {
        let queued = self.latest(configuration.queue.as_slice(), place);
        let in_line = match queued {
            Some(latest) => self.latest(configuration.blocked.as_slice(), latest),
            None => None,
        };
        in_line.is_none()
            || self.has_wrong_receive(events, configuration.receives.as_slice())
            || self.has_wrong_send(events, configuration.calls.as_slice())
    }

    // Where their last receive begins, if these messages may be received in order after `place`.
    fn latest(&self, line: &[usize], place: usize) -> Option<usize> {
        let mut latest = place;
        for send in line {
            let record = self.of(*send);
            if record.received != NEVER {
                if record.received < latest {
                    return None;
                }
                latest = latest.max(record.receive);
            }
        }
        Some(latest)
    }

    fn has_wrong_receive<T: Copy + Eq + Drop>(
        &self,
        events: &[Event<T, A>],
        receives: &[ParkedReceive],
    ) -> bool {
        for receive in receives {
            if let Status::Filled(send) = receive.status {
                if !self.may_receive(events, receive.place, send) {
                    return true;
                }
            }
        }
        false
    }

    // A dropped receive may have the message if no other one returns it.
    fn may_receive<T: Copy + Eq + Drop>(
        &self,
        events: &[Event<T, A>],
        receive: usize,
        send: usize,
    ) -> bool {
        match self.answer(events, receive) {
            Some(Answer::Got(message)) => message_at(events, send) == Some(*message),
            Some(Answer::Dropped) => self.of(send).received == NEVER,
            Some(_) => false,
            None => true,
        }
    }

    // A future that found no room and didn't park returns `NoMemory`, or is dropped.
    fn has_wrong_send<T: Copy + Eq + Drop>(
        &self,
        events: &[Event<T, A>],
        calls: &[OpenCall],
    ) -> bool {
        for call in calls {
            let sends = matches!(call_at(events, call.place), Some(Call::SendAsync(_)));
            if sends && call.progress == Progress::Tried {
                match self.answer(events, call.place) {
                    Some(Answer::NoMemory) | Some(Answer::Dropped) | None => {}
                    Some(_) => return true,
                }
            }
        }
        false
    }

    /// Whether the call that begins at a place is recorded to return `NoMemory`.
    pub fn is_refused<T: Copy + Drop>(&self, events: &[Event<T, A>], place: usize) -> bool {
        matches!(self.answer(events, place), Some(Answer::NoMemory))
    }

    /// Whether a receive that is dropped took the first message in line, which another one returns.
    pub fn is_taken_away<T: Copy + Eq + Drop>(
        &self,
        events: &[Event<T, A>],
        receive: usize,
        (before, after): (&Configuration<A>, &Configuration<A>),
    ) -> bool {
        let Some(front) = before.front() else {
            return false;
        };
        matches!(call_at(events, receive), Some(Call::RecvAsync))
            && matches!(self.answer(events, receive), Some(Answer::Dropped))
            && self.of(front).received != NEVER
            && !after.has_message_of(front)
    }

    fn answer<'e, T: Drop>(
        &self,
        events: &'e [Event<T, A>],
        place: usize,
    ) -> Option<&'e Answer<T, A>> {
        match events.get(self.of(place).returned) {
            Some(Event::Returns { answer, .. }) => Some(answer),
            _ => None,
        }
    }
}

const UNKNOWN: CallRecord = CallRecord {
    returned: NEVER,
    receive: NEVER,
    received: NEVER,
};

impl<A: Allocator + Copy> Configuration<A> {
    fn front(&self) -> Option<usize> {
        match self.queue.first() {
            Some(front) => Some(*front),
            None => self.blocked.first().copied(),
        }
    }

    fn has_message_of(&self, send: usize) -> bool {
        self.queue.contains(&send) || self.blocked.contains(&send) || self.is_handed_out(send)
    }

    fn is_handed_out(&self, send: usize) -> bool {
        for receive in self.receives.as_slice() {
            if receive.status == Status::Filled(send) {
                return true;
            }
        }
        false
    }
}
