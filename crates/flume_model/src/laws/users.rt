//! Laws for those who use a channel. These functions do nothing: each contract is a law.
ghost use Rattle.std.specs.Prelude.{◌≡◌, Some};
ghost use Rattle.flume_model.specs.Log.{Log, Opening};
ghost use Rattle.flume_model.specs.Line.{greatest, queue_len};
ghost use Rattle.flume_model.specs.Replies.{IsRun};
ghost use Rattle.flume_model.specs.Conserved.{Conserved};
ghost use Rattle.flume_model.specs.Producers.{HandedOutInOrder};
ghost use Rattle.flume_model.specs.AllBlock.{OnlyBlockingReceivers, IsAtMostCapacity};

use std::alloc::Allocator;

/// In each run, no message is given out twice, and none is lost until both sides have disconnected.
pub fn messages_are_conserved<T, A: Allocator>()
    ensures law { (opening : Opening) (log : Log T A)
        → IsRun opening log → Conserved opening log }
{}

/// In each run, messages are handed out in the order of their offers: so too one producer's.
pub fn each_producers_offers_keep_their_order<T, A: Allocator>()
    ensures law { (opening : Opening) (log : Log T A) → IsRun opening log → HandedOutInOrder log }
{}

/// If all receivers block, a run queues no more messages than the greatest capacity so far.
pub fn blocking_receivers_keep_the_queue_within_capacity<T, A: Allocator>()
    ensures law { (opening : Opening) (log : Log T A) → IsRun opening log
        → OnlyBlockingReceivers log
        → IsAtMostCapacity (greatest opening log) (queue_len opening log) }
    ensures rendezvous { (opening : Opening) (log : Log T A) → IsRun opening log
        → OnlyBlockingReceivers log
        → greatest opening log ≡ Some 0 → queue_len opening log ≡ 0 }
{}
