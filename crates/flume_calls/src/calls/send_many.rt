//! The sends of a list of messages.
ghost use Rattle.std.specs.Prelude.{◌≡◌, ◌∷◌, ◌<◌};
ghost use Rattle.std.specs.VecDeque.{deque_len, deque_capacity};
ghost use Rattle.flume_calls.specs.Batches.{IsBatch};

use crate::turn::Turn;
use flume_core::chan::Chan;
use flume_core::error::TrySendError;
use flume_model::step::Reply;
use std::alloc::Allocator;
use std::collections::VecDeque;

/// Offers these messages in order by `Chan::try_send`, up to the first that is refused. The error
/// says why, and has that one and the rest, in order. The messages before it stay sent.
/// ```
/// let messages = VecDeque::from_vec(vec![in alloc; 1, 2, 3]?);
/// let mut chan: Chan<u64, u32> = Chan::new(alloc, Some(2));
/// SendMany { messages }.apply(&mut chan);     // Err(Full([3]))
/// ```
#[derive(Drop)]
pub struct SendMany<T, A: Allocator> {
    pub messages: VecDeque<T, A>,
}

impl<T: Drop, S: Drop, A: Allocator + Copy> Turn<T, S, A> for SendMany<T, A> {
    ghost use Rattle.flume_calls.specs.ManySends.{SendsMany, LeavesRest, SendManyOutcome};

    type Answer = Result<(), TrySendError<VecDeque<T, A>>>;

    ghost does = { λ turn old new answer.
        IsBatch {A = A} (SendsMany turn.messages.items) old new answer
        × SendManyOutcome turn.messages.items old new answer };

    ghost makes = { λ turn. SendsMany turn.messages.items };

    ghost leads = { λ _ old new answer does. does.0 };

    ghost answers = { λ turn. LeavesRest turn.messages.items };

    #[inline(always)]
    fn apply(self, chan: &mut Chan<T, S, A>) -> Result<(), TrySendError<VecDeque<T, A>>> {
        let mut messages = self.messages;
        while let Some(message) = messages.pop_front() {
            match chan.try_send(message) {
                Reply::Sent { .. } => {}
                Reply::Full(back) => return Err(TrySendError::Full(put_back(messages, back))),
                Reply::Closed(back) => {
                    return Err(TrySendError::Disconnected(put_back(messages, back)));
                }
                Reply::NoMemory(Some(back)) => {
                    return Err(TrySendError::NoMemory(put_back(messages, back)));
                }
                _ => unreachable!(),
            }
        }
        Ok(())
    }
}

fn put_back<T, A: Allocator>(mut rest: VecDeque<T, A>, message: T) -> VecDeque<T, A>
    requires room { deque_len rest < deque_capacity rest }
    ensures items { result.items ≡ message ∷ rest.items }
{
    rest.push_front_reserved(message);
    rest
}
