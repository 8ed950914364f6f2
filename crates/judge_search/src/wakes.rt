//! The states of parked receives, and the round that notifies them.
ghost use Rattle.std.specs.Prelude.{◌≡◌};
ghost use Rattle.judge_search.specs.Receives.{waits, is_awake, round_of, round_fills_one};

use crate::configuration::{ParkedReceive, Status};
use flume_model::step::Kind;

impl ParkedReceive {
    pub(crate) fn waits(&self) -> bool
        ensures waits { result ≡ waits self.now.status }
    {
        matches!(self.status, Status::Waiting)
    }

    pub(crate) fn is_awake(&self) -> bool
        ensures awake { result ≡ is_awake self.now.status }
    {
        matches!(self.status, Status::Woken)
    }
}

// Notifies waiting streams up to the first waiting receive of another kind, which is notified, or
// filled with `front` if it blocks. Whether one was filled.
pub(crate) fn wake_round(receives: &mut [ParkedReceive], front: usize) -> bool
    ensures round { receives.new ≡ round_of front receives.old }
    ensures fills { result ≡ round_fills_one receives.old }
{
    for place in 0..receives.len() {
        let receive = receives[place];
        if receive.waits() {
            match receive.kind {
                Kind::Block => {
                    receives[place].status = Status::Filled(front);
                    return true;
                }
                Kind::Stream => receives[place].status = Status::Woken,
                Kind::Plain | Kind::Arm => {
                    receives[place].status = Status::Woken;
                    return false;
                }
            }
        }
    }
    false
}
