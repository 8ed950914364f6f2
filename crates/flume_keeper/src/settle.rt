//! What was done to a channel, for whoever has all parts.
ghost use Rattle.std.specs.Prelude.{◌≡◌};
ghost use Rattle.flume_actions.specs.Actions.{IsPart, IsWhole};

use crate::kept::Kept;
use crate::traced::{ChannelName, ChannelParty, Traced};
use std::alloc::Allocator;

impl<T: Drop, S: Drop, A: Allocator + Copy, J: ChannelName> Kept<T, S, A, Traced<T, A, J>> {
    /// Changes nothing. Its clause says that the party's actions stand in all that was done here.
    pub fn confirm(&mut self, party: &mut ChannelParty<T, J, A>)
        ensures party { party.new ≡ party.old }
        ensures channel { self.new ≡ self.old }
        ensures part { IsPart J.identity.capacity party.old.actions }
    {
        party.audit(&mut self.keeper.trace);
    }

    /// Changes nothing. How many messages are queued or blocked; `None` if no end lives, or if
    /// there are more than a `usize` can count. Its clause says that the party, which has all parts,
    /// made all steps that moved a message.
    pub fn settle(&mut self, party: &mut ChannelParty<T, J, A>) -> Option<usize>
        requires whole { party.old.parts ≡ J.identity.parts }
        ensures party { party.new ≡ party.old }
        ensures channel { self.new ≡ self.old }
        ensures whole { IsWhole J.identity.capacity party.old.actions result }
    {
        party.audit(&mut self.keeper.trace);
        self.locked.messages_left()
    }
}
