//! A list that is kept from the replies of a script alone, and says whether they can be right.
use flume_model::step::{Reply, Step};
use std::alloc::{AllocError, Global};

#[derive(Drop)]
struct Offer {
    message: u64,
    ticket: Option<u64>,
    returned: bool,
    is_spent: bool,
    // Whether its sender was due; if it was before the channel closed, it is once more.
    was_due: bool,
    was_blocked_at_closing: bool,
}

// A message that was handed out. One that filled a parked receiver is known once that asks.
#[derive(Drop)]
struct HandOut {
    message: Option<u64>,
    filled: Option<u64>,
}

#[derive(Clone, Copy, PartialEq, Drop)]
enum TicketState {
    Parked,
    Filled,
    Spent,
}

#[derive(Drop)]
struct Ticket {
    number: u64,
    state: TicketState,
    was_due: bool,
}

/// What the replies of a script say, and how many of them can't be right.
#[derive(Drop)]
pub struct Judge {
    offers: Vec<Offer>,
    hand_outs: Vec<HandOut>,
    tickets: Vec<Ticket>,
    /// The last ticket that was issued.
    pub last_ticket: u64,
    faults: u64,
    senders: usize,
    receivers: usize,
}

impl Judge {
    /// The judge of a new channel.
    pub fn new(alloc: Global) -> Judge {
        Judge {
            offers: Vec::new(alloc),
            hand_outs: Vec::new(alloc),
            tickets: Vec::new(alloc),
            last_ticket: 0,
            faults: 0,
            senders: 1,
            receivers: 1,
        }
    }

    /// Adds the reply to a step.
    pub fn add(&mut self, step: &Step<u64>, reply: &Reply<u64>) -> Result<(), AllocError> {
        match step {
            Step::TrySend(message) | Step::Send(message) => self.add_offer(*message, reply)?,
            Step::PollSend(ticket) | Step::WithdrawSend(ticket) => self.add_send_answer(
                *ticket, reply,
            ),
            Step::TryRecv | Step::Recv(_) => self.add_receive(reply)?,
            Step::Poll(ticket) | Step::Withdraw(ticket) => self.add_receiver_answer(
                *ticket, reply,
            )?,
            Step::Drain => self.add_drain(reply)?,
            _ => self.add_count(step, reply),
        }
        Ok(())
    }

    fn fault(&mut self) {
        self.faults = self.faults.saturating_add(1);
    }

    fn add_offer(&mut self, message: u64, reply: &Reply<u64>) -> Result<(), AllocError> {
        let (ticket, filled) = match reply {
            Reply::Sent { filled } => (None, *filled),
            Reply::Pending(ticket) => (Some(*ticket), None),
            Reply::Full(_) | Reply::Closed(_) => return Ok(()),
            _ => {
                self.fault();
                return Ok(());
            }
        };
        if let Some(ticket) = ticket {
            self.issue(ticket);
        }
        let returned = false;
        self.offers.push(Offer {
            message,
            ticket,
            returned,
            is_spent: false,
            was_due: false,
            was_blocked_at_closing: false,
        })?;
        self.fill(filled)
    }

    fn issue(&mut self, ticket: u64) {
        self.last_ticket = self.last_ticket.saturating_add(1);
        if ticket != self.last_ticket {
            self.fault();
        }
    }

    // Each reply but `Waiting` is the last of a send, and only its own message comes back.
    fn add_send_answer(&mut self, ticket: u64, reply: &Reply<u64>) {
        let is_over = self.is_over();
        let mut is_right = matches!(reply, Reply::NoTicket);
        for offer in &mut self.offers {
            if offer.ticket == Some(ticket) && !offer.is_spent && !is_over {
                offer.is_spent = !matches!(reply, Reply::Waiting);
                offer.returned = matches!(reply, Reply::Returned { .. });
                is_right = match reply {
                    Reply::Returned { message, .. } => offer.message == *message,
                    Reply::Accepted => true,
                    Reply::Waiting => true,
                    _ => false,
                };
            }
        }
        if !is_right {
            self.fault();
        }
    }

    /// Adds that the last step made this ticket due: its call waits, and wasn't due before; but a
    /// send that was blocked as the channel closed may be due twice.
    pub fn add_due(&mut self, ticket: u64) {
        let is_closed = self.senders == 0 || self.receivers == 0;
        let mut is_right = false;
        for offer in &mut self.offers {
            if offer.ticket == Some(ticket) && !offer.is_spent {
                is_right = !offer.was_due || offer.was_blocked_at_closing;
                offer.was_blocked_at_closing = !offer.was_due && is_closed;
                offer.was_due = true;
            }
        }
        for entry in &mut self.tickets {
            if entry.number == ticket && entry.state != TicketState::Spent {
                is_right = !entry.was_due;
                entry.was_due = true;
            }
        }
        if !is_right || self.is_over() {
            self.fault();
        }
    }

    /// Checks that each filled receiver was due, and in a closed channel each call that waits.
    pub fn check_all_due(&mut self) {
        let is_closed = self.senders == 0 || self.receivers == 0;
        let mut is_right = true;
        for offer in &self.offers {
            let waits = offer.ticket.is_some() && !offer.is_spent;
            is_right = is_right && (offer.was_due || !waits || !is_closed);
        }
        for entry in &self.tickets {
            let is_due = match entry.state {
                TicketState::Parked => is_closed,
                TicketState::Filled => true,
                TicketState::Spent => false,
            };
            is_right = is_right && (entry.was_due || !is_due);
        }
        if !is_right && !self.is_over() {
            self.fault();
        }
    }

    fn add_receive(&mut self, reply: &Reply<u64>) -> Result<(), AllocError> {
        match reply {
            Reply::Got(message) => self.add_hand_out(*message)?,
            Reply::Parked(ticket) => {
                self.issue(*ticket);
                let (number, state) = (*ticket, TicketState::Parked);
                let was_due = false;
                self.tickets.push(Ticket {
                    number,
                    state,
                    was_due,
                })?;
            }
            Reply::Empty | Reply::Ended => {}
            _ => self.fault(),
        }
        Ok(())
    }

    // Answers the state before. A receiver that waits again may be due again.
    fn set_state(&mut self, number: u64, state: TicketState) -> TicketState {
        let mut before = TicketState::Spent;
        for ticket in &mut self.tickets {
            if ticket.number == number {
                before = ticket.state;
                ticket.state = state;
                ticket.was_due = ticket.was_due && state != TicketState::Parked;
            }
        }
        before
    }

    fn fill(&mut self, filled: Option<u64>) -> Result<(), AllocError> {
        if let Some(ticket) = filled {
            if self.set_state(ticket, TicketState::Filled) != TicketState::Parked {
                self.fault();
            }
            let message = None;
            self.hand_outs.push(HandOut { message, filled })?;
        }
        Ok(())
    }

    fn add_hand_out(&mut self, message: u64) -> Result<(), AllocError> {
        self.hand_outs.push(HandOut {
            message: Some(message),
            filled: None,
        })?;
        Ok(())
    }

    // A receiver that was filled gets its message, and no other reply.
    fn add_receiver_answer(&mut self, ticket: u64, reply: &Reply<u64>) -> Result<(), AllocError> {
        let (after, is_right) = match (self.set_state(ticket, TicketState::Spent), reply) {
            (TicketState::Parked, Reply::Got(message)) => {
                self.add_hand_out(*message)?;
                (TicketState::Spent, true)
            }
            (TicketState::Filled, Reply::Got(message)) => {
                self.set_hand_out(ticket, *message);
                (TicketState::Spent, true)
            }
            (TicketState::Parked, Reply::Waiting) => (TicketState::Parked, true),
            (TicketState::Parked, Reply::Ended) => (TicketState::Spent, true),
            (TicketState::Parked, Reply::Gone { filled, .. }) => {
                self.fill(*filled)?;
                (TicketState::Spent, true)
            }
            (TicketState::Spent, Reply::NoTicket) => (TicketState::Spent, true),
            (before, _) => (before, false),
        };
        self.set_state(ticket, after);
        if !is_right {
            self.fault();
        }
        Ok(())
    }

    fn set_hand_out(&mut self, ticket: u64, message: u64) {
        for hand_out in &mut self.hand_outs {
            if hand_out.filled == Some(ticket) {
                hand_out.message = Some(message);
            }
        }
    }

    fn add_drain(&mut self, reply: &Reply<u64>) -> Result<(), AllocError> {
        match reply {
            Reply::Drained(list) => {
                for message in list {
                    self.add_hand_out(*message)?;
                }
            }
            _ => self.fault(),
        }
        Ok(())
    }

    fn add_count(&mut self, step: &Step<u64>, reply: &Reply<u64>) {
        match (step, reply) {
            (Step::CloneSender, Reply::Done) => self.senders = self.senders.saturating_add(1),
            (Step::CloneReceiver, Reply::Done) => self.receivers = self.receivers.saturating_add(1),
            (Step::DropSender, Reply::Done) => self.senders = self.senders.saturating_sub(1),
            (Step::DropReceiver, Reply::Done) => self.receivers = self.receivers.saturating_sub(1),
            (Step::SenderCount, Reply::Number(senders)) if *senders != self.senders => self.fault(),
            (Step::ReceiverCount, Reply::Number(receivers)) if *receivers != self.receivers => {
                self.fault();
            }
            _ => {}
        }
        if self.is_over() {
            for ticket in &mut self.tickets {
                ticket.state = TicketState::Spent;
            }
        }
    }

    fn is_over(&self) -> bool {
        self.senders == 0 && self.receivers == 0
    }

    fn kept_messages(&self, alloc: Global) -> Result<Vec<u64>, AllocError> {
        let mut kept_messages = Vec::new(alloc);
        for offer in &self.offers {
            if !offer.returned {
                kept_messages.push(offer.message)?;
            }
        }
        Ok(kept_messages)
    }

    /// Whether each reply can be right; the j-th hand-out is the j-th offer that was kept; and
    /// unless both sides have disconnected, no message is left, in the queue or with a receiver.
    pub fn is_right(&self, alloc: Global) -> Result<bool, AllocError> {
        let kept_messages = self.kept_messages(alloc)?;
        if self.faults > 0 || !self.is_over() && self.hand_outs.len() != kept_messages.len() {
            return Ok(false);
        }
        let mut next = kept_messages.iter();
        for hand_out in &self.hand_outs {
            let right = match (next.next(), hand_out.message) {
                (None, _) => false,
                (Some(kept_messages), Some(message)) => *kept_messages == message,
                (Some(_), None) => self.is_over(),
            };
            if !right {
                return Ok(false);
            }
        }
        Ok(true)
    }
}
