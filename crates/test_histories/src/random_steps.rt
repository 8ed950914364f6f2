//! Random steps, the same for the same seed.
use flume_model::step::{Kind, Step};

/// A generator of random steps.
#[derive(Drop)]
pub struct RandomSteps {
    state: u64,
    message: u64,
    /// The last ticket that the channel issued, of which steps may ask.
    pub last_ticket: u64,
}

impl RandomSteps {
    /// Steps from this seed.
    pub fn from_seed(state: u64) -> RandomSteps {
        RandomSteps {
            state,
            message: 0,
            last_ticket: 0,
        }
    }

    fn below(&mut self, bound: u64) -> u64 {
        self.state = self
            .state
            .wrapping_mul(6_364_136_223_846_793_005)
            .wrapping_add(1_442_695_040_888_963_407);
        (self.state >> 33).checked_rem(bound).unwrap_or(0)
    }

    /// A capacity, or `None` for unbounded.
    pub fn capacity(&mut self) -> Option<usize> {
        match self.below(5) {
            0 => None,
            1 => Some(0),
            2 => Some(1),
            3 => Some(2),
            _ => Some(3),
        }
    }

    fn message(&mut self) -> u64 {
        self.message = self.message.wrapping_add(1);
        self.message
    }

    // Also 0 and the next ticket, which no call has.
    fn ticket(&mut self) -> u64 {
        self.below(self.last_ticket.saturating_add(2))
    }

    fn kind(&mut self) -> Kind {
        match self.below(4) {
            0 => Kind::Block,
            1 => Kind::Plain,
            2 => Kind::Stream,
            _ => Kind::Arm,
        }
    }

    /// A step.
    pub fn step(&mut self) -> Step<u64> {
        match self.below(12) {
            0 => Step::TrySend(self.message()),
            1 | 2 => Step::Send(self.message()),
            3 => Step::PollSend(self.ticket()),
            4..=7 => Step::Recv(self.kind()),
            8 | 9 => Step::Poll(self.ticket()),
            _ => self.rarer_step(),
        }
    }

    fn rarer_step(&mut self) -> Step<u64> {
        match self.below(20) {
            0..=3 => Step::WithdrawSend(self.ticket()),
            4..=7 => Step::Withdraw(self.ticket()),
            8 | 9 => Step::TryRecv,
            10 => Step::Drain,
            11 => Step::CloneSender,
            12 => Step::CloneReceiver,
            13 => Step::DropSender,
            14 => Step::DropReceiver,
            15 => Step::Len,
            16 => Step::SetCapacity(self.below(5) as usize),
            _ => self.query(),
        }
    }

    fn query(&mut self) -> Step<u64> {
        match self.below(6) {
            0 => Step::IsEmpty,
            1 => Step::IsFull,
            2 => Step::Capacity,
            3 => Step::SenderCount,
            4 => Step::ReceiverCount,
            _ => Step::IsDisconnected,
        }
    }
}
