//! What holds of the state of a channel.
ghost use Rattle.std.specs.Prelude.{◌≡◌, ◌≤◌};
ghost use Rattle.flume_model.specs.Entries.{woken_count};
ghost use Rattle.flume_state.specs.State.{message_count};
ghost use Rattle.flume_core.specs.Represents.{IsReachable};
ghost use Rattle.flume_core.specs.StateFacts.{ChannelFacts, NobodyIsStuck};

use crate::chan::Chan;
use std::alloc::Allocator;

/// What holds of every state that a run leads to; `fits` holds of any. Does nothing.
/// ```
/// let mut chan: Chan<u64, u32> = Chan::new(alloc, Some(0));
/// chan.send(7, 10);                  // Pending(1)
/// facts(&chan);
/// ```
pub fn facts<T: Drop, S: Drop, A: Allocator + Copy>(chan: &Chan<T, S, A>)
    ensures facts { IsReachable A chan.now → ChannelFacts chan.now }
    ensures rest { IsReachable A chan.now → woken_count chan.now.entries ≡ 0
        → NobodyIsStuck chan.now }
    ensures fits { message_count chan.now ≤ chan.now.space }
{
    let _ = chan.room();
}
