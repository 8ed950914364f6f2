//! A keeper that has all that was done to the channel.
ghost use Rattle.std.specs.Prelude.{◌≡◌, ◌<◌, []};
ghost use Rattle.flume_party.specs.Parties.{party_of};

use crate::keeper::{Keeper, Made, Maker};
use crate::unopened::UnopenedChannel;
use flume_calls::locked::Locked;
use flume_model::step::{Reply, Step};
use flume_party::{Ownership, Party, Records, SharedTrace};
use flume_trace::TraceName;
use std::alloc::{Allocator, Global};
use std::marker::{Brand, Model, PhantomData};
use std::sync::ledger::Ledger;

/// Which channel it is, among those of a program. A function over any `J: ChannelName` is called
/// with `Brand`, and the caller's proof picks the identity of the `UnopenedChannel` that it passes.
pub trait ChannelName {
    ghost use Rattle.flume_keeper.specs.Identities.{ChannelIdentity};

    ghost identity: { ChannelIdentity };
}

impl ChannelName for Brand {
    ghost use Rattle.flume_keeper.specs.Identities.{no_identity};

    ghost identity = { no_identity };
}

/// The names of a channel's trace, and of the parts of its parties.
pub struct NamesOf<J> {
    of: PhantomData<J>,
}

impl<J: ChannelName> TraceName for NamesOf<J> {
    ghost trace_name = { J.identity.trace_name };

    ghost positions_name = { J.identity.positions_name };
}

impl<J: ChannelName> Ledger for NamesOf<J> {
    ghost name = { J.identity.parts_name };

    ghost parts = { J.identity.parts };
}

/// The steps that move messages are parties'; the others are nobody's.
pub struct MessageMoves;

impl<T, A: Allocator> Ownership<(Step<T>, Reply<T, A>)> for MessageMoves {
    ghost use Rattle.flume_actions.specs.Actions.{is_of_party};

    ghost is_owned = { is_of_party };
}

/// One who sends and receives, and knows what it did.
pub type ChannelParty<T, J, A = Global> = Party<(Step<T>, Reply<T, A>), NamesOf<J>, MessageMoves>;

/// The steps of the turn or the poll are recorded, and lead to the channel after it.
struct StepsMade<T, S, A, J> {
    of: PhantomData<(T, S, A, J)>,
}

impl<T, S, A: Allocator, J: ChannelName, M: Maker<T, S, A>> Records<
    Made<M, M::Answer, Locked<T, S, A>>,
    (Step<T>, Reply<T, A>),
> for StepsMade<T, S, A, J> {
    ghost use Rattle.std.specs.Prelude.{◌++◌};
    ghost use Rattle.flume_keeper.specs.Keeps.{LeadsTo};

    ghost may = { λ made before steps. M.makes made.by steps made.answer.value
        × LeadsTo J.identity.capacity (before ++ steps) made.after.value };
}

/// All that was done to the channel. Contracts see a list of actions, the oldest first.
#[derive(Drop)]
pub struct Traced<T, A: Allocator, J: ChannelName> {
    pub(crate) trace: SharedTrace<(Step<T>, Reply<T, A>), NamesOf<J>, MessageMoves>,
}

impl<T, A: Allocator, J: ChannelName> Model for Traced<T, A, J> {
    ghost use Rattle.std.specs.Prelude.{List};
    ghost use Rattle.flume_actions.specs.Actions.{Action};

    ghost Value = { List (Action T A) };

    ghost view = { λ traced. traced.trace };
}

impl<T, A: Allocator, J: ChannelName> Traced<T, A, J> {
    /// Nothing was done yet. The party has all parts.
    pub fn open(channel: UnopenedChannel) -> (Self, ChannelParty<T, J, A>)
        requires named { channel ≡ J.identity }
        requires some { 0 < channel.parts }
        ensures empty { result.0 ≡ [] }
        ensures whole { result.1 ≡ party_of J.identity.parts [] }
    {
        let UnopenedChannel { trace, parts, .. } = channel;
        let (trace, party) = SharedTrace::open(trace, parts);
        (Traced { trace }, party)
    }
}

impl<T, A: Allocator, J: ChannelName> Keeper<T, A> for Traced<T, A, J> {
    ghost use Rattle.std.specs.Prelude.{◌≡◌, reverse};
    ghost use Rattle.flume_party.specs.Parties.{and_made};
    ghost use Rattle.flume_model.specs.Log.{opens};

    type Party = ChannelParty<T, J, A>;

    ghost fits = { λ traced logs. logs (opens J.identity.capacity 1) (reverse traced) };

    ghost did = { λ old steps new. new ≡ and_made old steps };

    #[inline(always)]
    fn keep<S, M: Maker<T, S, A>>(
        &mut self,
        party: &mut ChannelParty<T, J, A>,
        made: &Made<M, M::Answer, Locked<T, S, A>>,
    ) {
        party.record::<Made<M, M::Answer, Locked<T, S, A>>, StepsMade<T, S, A, J>>(
            &mut self.trace,
            made,
        );
    }

    #[inline(always)]
    fn keep_unowned<S, M: Maker<T, S, A>>(&mut self, made: &Made<M, M::Answer, Locked<T, S, A>>) {
        self.trace
            .record_unowned::<Made<M, M::Answer, Locked<T, S, A>>, StepsMade<T, S, A, J>>(made);
    }
}
