//! Receives from channels with a trace.
ghost use Rattle.std.specs.Prelude.{◌≢◌, [], ◌++◌, Err, option_to_list};
ghost use Rattle.flume.specs.declared.step.Step.TheVariants as step;
ghost use Rattle.flume.specs.ReceiveTurns.{after_try_recv};
ghost use Rattle.flume.specs.Calls.{HasCalled, HasReceived, HasStepped};
ghost use Rattle.flume.specs.Calls.{got_by, drained_by};
ghost use Rattle.flume.specs.Callers.{HasMadeCalls};
ghost use Rattle.flume_laws.specs.Offered.{WereOffered};
ghost use Rattle.flume.specs.CallSteps.{try_receive_as_turn, receive_as_timed};
ghost use Rattle.flume.specs.Iterators.{after_drain};
ghost use Rattle.test_promises.specs.Receives.{HasReceivedTwo};

use flume::error::NoMemory;
use flume::traced::{ChannelName, ChannelParty, Traced, TracedReceiver};
use flume::{Drain, Iter, RecvError, RecvTimeoutError, TryRecvError, Waits};
use std::alloc::{Allocator, Global};
use std::time::Instant;

/// Takes the next message, and doesn't wait. The party made one call, a try, which got that message
/// if the result is `Ok`, and nothing otherwise. The result is the one to the channel's reply.
pub fn try_receive<T: Drop, J: ChannelName, R: Waits>(
    rx: &TracedReceiver<T, R, J>,
    me: &mut ChannelParty<T, J>,
) -> Result<T, TryRecvError>
    ensures got { HasCalled me.old me.new [] (got_by result) }
    ensures made { HasStepped step.TryRecv after_try_recv me.old (try_receive_as_turn result)
        me.new }
    ensures never_no_memory { result ≢ Err TryRecvError.NoMemory }
{
    rx.try_recv(me)
}

/// Takes the next message, and waits while there is none. The party made one receive with this
/// result, which got that message if it is `Ok`, and nothing otherwise.
pub fn receive<T: Drop, J: ChannelName, R: Waits>(
    rx: &TracedReceiver<T, R, J>,
    me: &mut ChannelParty<T, J>,
) -> Result<T, RecvError>
    ensures got { HasCalled me.old me.new [] (got_by result) }
    ensures made { HasReceived me.old me.new (receive_as_timed result) }
{
    rx.recv(me)
}

/// Takes the next two messages, waits for each, and confirms. The party made two receives with
/// these results. What they got was offered in this very channel, in this order, and none of it
/// went back to its sender, whatever others did there.
pub fn receive_two<T: Drop, J: ChannelName, R: Waits>(
    rx: &TracedReceiver<T, R, J>,
    me: &mut ChannelParty<T, J>,
) -> (Result<T, RecvError>, Result<T, RecvError>)
    ensures got { HasMadeCalls me.old me.new [] (got_by result.0 ++ got_by result.1) }
    ensures made { HasReceivedTwo me.old me.new (receive_as_timed result.0)
        (receive_as_timed result.1) }
    ensures offered { WereOffered J.identity.capacity me.new.actions
        (got_by result.0 ++ got_by result.1) }
{
    let first = rx.recv(me);
    let second = rx.recv(me);
    rx.confirm(me);
    (first, second)
}

/// Takes the next message, and waits up to the deadline. The party made one receive with this
/// result, which got that message if it is `Ok`, and nothing otherwise. It says that it was late
/// only if it withdrew. No clause says what a clock showed.
pub fn receive_in_time<T: Drop, J: ChannelName, R: Waits, A: Allocator + Copy>(
    rx: &TracedReceiver<T, R, J, A>,
    me: &mut ChannelParty<T, J, A>,
    deadline: Instant,
) -> Result<T, RecvTimeoutError>
    ensures got { HasCalled me.old me.new [] (got_by result) }
    ensures made { HasReceived me.old me.new result }
{
    rx.recv_deadline(me, deadline)
}

/// Takes all messages that are queued. The party made one call, which got the messages that the
/// drain has, in their order.
pub fn receive_all<'a, T: Drop, J: ChannelName, R: Waits>(
    rx: &'a TracedReceiver<T, R, J>,
    me: &mut ChannelParty<T, J>,
) -> Result<Drain<'a, T>, NoMemory>
    ensures got { HasCalled me.old me.new [] (drained_by result) }
    ensures made { HasStepped step.Drain after_drain me.old result me.new }
{
    rx.drain(me)
}

/// The next message of an iterator. Its party made one call, which got that message, or nothing if
/// the result is `None`.
pub fn next_message<T: Drop, J: ChannelName, R: Waits>(
    messages: &mut Iter<'_, T, R, Global, Traced<T, Global, J>>,
) -> Option<T>
    ensures got { HasCalled messages.old.party messages.new.party [] (option_to_list result) }
{
    messages.next()
}
