//! Each call of traced ends that isn't made elsewhere in this program, in one thread.
ghost use Rattle.std.specs.Prelude.{◌≡◌};

use flume::traced::{ChannelName, ChannelParty, TracedReceiver, TracedSender, UnopenedChannel};
use flume::{Runtime, Selector};
use futures::executor::block_on;
use futures::{SinkExt, StreamExt};
use std::alloc::Global;
use std::io;
use std::marker::Brand;
use std::random::RandomSource;
use std::time::{Duration, Instant};

/// Sends lists: 1 to 8.
fn send_lists<J: ChannelName, R: Runtime>(
    rt: R,
    alloc: Global,
    tx: &TracedSender<u64, R, J>,
    me: &mut ChannelParty<u64, J>,
) -> io::Result<()> {
    let now = Instant::now(&rt)?;
    let messages = vec![in alloc; 1, 2]?;
    tx.try_send_many(me, messages)?;
    let messages = vec![in alloc; 3, 4]?;
    tx.send_many(me, messages)?;
    let messages = vec![in alloc; 5, 6]?;
    tx.send_many_deadline(me, messages, now)?;
    let messages = vec![in alloc; 7, 8]?;
    tx.send_many_timeout(me, messages, Duration::ZERO)?;
    Ok(())
}

/// Sends 9 to 12, one by one.
fn send_each<J: ChannelName, R: Runtime>(
    rt: R,
    tx: &TracedSender<u64, R, J>,
    me: &mut ChannelParty<u64, J>,
) -> io::Result<()> {
    let now = Instant::now(&rt)?;
    tx.try_send(me, 9)?;
    tx.send_deadline(me, 10, now)?;
    tx.send_timeout(me, 11, Duration::ZERO)?;
    let weak = tx.downgrade()?;
    if let Some(other) = weak.upgrade()? {
        other.send(me, 12)?;
    }
    tx.confirm(me);
    Ok(())
}

/// Sends 13 by a future, and gives the party back.
fn send_as_future<J: ChannelName, R: Runtime + RandomSource>(
    rt: R,
    tx: &TracedSender<u64, R, J>,
    me: ChannelParty<u64, J>,
) -> io::Result<ChannelParty<u64, J>> {
    let (me, sent) = block_on(&rt, tx.send_async(me, 13))?;
    sent?;
    let (me, _never_sent) = tx.send_async(me, 0).cancel();
    let (me, _nothing) = tx.sink(me).cancel();
    Ok(me)
}

/// Sends 14 by a selection, and gives the party back.
fn send_by_selection<J: ChannelName, R: Runtime>(
    tx: &TracedSender<u64, R, J>,
    me: ChannelParty<u64, J>,
) -> io::Result<ChannelParty<u64, J>> {
    let arms = Selector::new().send_by(tx, me, 14, |sent| sent.is_ok());
    let (sent, ((), me)) = arms.wait_by();
    sent?;
    Ok(me)
}

/// Sends 15 by a sink, which keeps the party.
fn send_by_sink<J: ChannelName, R: Runtime + RandomSource>(
    rt: R,
    tx: &TracedSender<u64, R, J>,
    me: ChannelParty<u64, J>,
) -> io::Result<()> {
    let sink = tx.sink(me);
    block_on(&rt, sink.send(15))??;
    Ok(())
}

/// Takes the first seven by calls that give a message, or a list.
fn receive_each<J: ChannelName, R: Runtime>(
    rt: R,
    rx: &TracedReceiver<u64, R, J>,
    me: &mut ChannelParty<u64, J>,
    items: &mut Vec<u64>,
) -> io::Result<()> {
    let (now, hour) = (Instant::now(&rt)?, Duration::from_secs(3600));
    items.push(rx.try_recv(me)?)?;
    items.push(rx.recv_deadline(me, now)?)?;
    items.push(rx.recv_timeout(me, hour)?)?;
    rx.try_recv_many(me, items, 1)?;
    rx.recv_many(me, items, 1)?;
    rx.recv_many_deadline(me, items, 1, now)?;
    rx.recv_many_timeout(me, items, 1, hour)?;
    rx.confirm(me);
    Ok(())
}

/// Takes four by iterators, and gives the party back.
fn receive_by_iterators<J: ChannelName, R: Runtime>(
    rt: R,
    rx: &TracedReceiver<u64, R, J>,
    me: ChannelParty<u64, J>,
    items: &mut Vec<u64>,
) -> io::Result<ChannelParty<u64, J>> {
    let now = Instant::now(&rt)?;
    let mut messages = rx.try_iter(me);
    items.extend(messages.next())?;
    let me = messages.into_party();
    let mut messages = rx.iter_timeout(me, Duration::from_secs(3600));
    items.extend(messages.next())?;
    let me = messages.into_party();
    let mut messages = rx.iter_deadline(me, now);
    items.extend(messages.next())?;
    let me = messages.into_party();
    let mut messages = rx.clone()?.into_iter(me);
    items.extend(messages.next())?;
    Ok(messages.into_party())
}

/// Takes one by a future, and gives the party back.
fn receive_as_future<J: ChannelName, R: Runtime + RandomSource>(
    rt: R,
    rx: &TracedReceiver<u64, R, J>,
    me: ChannelParty<u64, J>,
    items: &mut Vec<u64>,
) -> io::Result<ChannelParty<u64, J>> {
    let (me, message) = block_on(&rt, rx.recv_async(me))?;
    items.push(message?)?;
    let (me, _none) = rx.recv_async(me).cancel();
    let (me, _none) = rx.stream(me).cancel();
    Ok(me)
}

/// Takes the next by a stream, which keeps the party.
fn receive_by_stream<J: ChannelName, R: Runtime + RandomSource>(
    rt: R,
    rx: &TracedReceiver<u64, R, J>,
    me: ChannelParty<u64, J>,
    items: &mut Vec<u64>,
) -> io::Result<()> {
    let mut messages = rx.stream(me);
    items.extend(block_on(&rt, messages.next())?)?;
    Ok(())
}

/// Takes one more by a selection, and gives the party back.
fn receive_by_selection<J: ChannelName, R: Runtime>(
    rx: &TracedReceiver<u64, R, J>,
    me: ChannelParty<u64, J>,
    items: &mut Vec<u64>,
) -> io::Result<ChannelParty<u64, J>> {
    let arms = Selector::new().recv_by(rx, me, Result::ok);
    let (message, ((), me)) = arms.wait_timeout_by(Duration::from_secs(3600));
    items.extend(message?)?;
    Ok(me)
}

/// Selects a receive of which nothing comes: by a deadline that is reached, and by a try.
fn select_in_vain<J: ChannelName, R: Runtime>(
    rt: R,
    rx: &TracedReceiver<u64, R, J>,
    me: ChannelParty<u64, J>,
) -> io::Result<ChannelParty<u64, J>> {
    let now = Instant::now(&rt)?;
    let arms = Selector::new().recv_by(rx, me, Result::ok);
    let (_late, ((), me)) = arms.wait_deadline_by(now);
    let arms = Selector::new().recv_by(rx, me, Result::ok);
    let (_none, ((), me)) = arms.try_wait_by();
    Ok(me)
}

/// What is received over this channel, of 1 to 15; the last by a drain.
pub fn each_call_named<J: ChannelName, R: Runtime + RandomSource>(
    rt: R,
    alloc: Global,
    channel: UnopenedChannel,
) -> io::Result<Vec<u64>>
    requires named { channel ≡ J.identity }
    requires parts { channel.parts ≡ 3 }
{
    let (tx, rx, mut me) = flume::on(rt).traced::<u64, J>(channel)?;
    let (sink, stream) = (me.split_off(1), me.split_off(1));
    send_lists(rt, alloc, &tx, &mut me)?;
    send_each(rt, &tx, &mut me)?;
    let me = send_as_future(rt, &tx, me)?;
    let mut me = send_by_selection(&tx, me)?;
    send_by_sink(rt, &tx, sink)?;
    let mut items = Vec::new(alloc);
    receive_each(rt, &rx, &mut me, &mut items)?;
    let me = receive_by_iterators(rt, &rx, me, &mut items)?;
    let me = receive_as_future(rt, &rx, me, &mut items)?;
    receive_by_stream(rt, &rx, stream, &mut items)?;
    let mut me = receive_by_selection(&rx, me, &mut items)?;
    for message in rx.drain(&mut me)? {
        items.push(message)?;
    }
    select_in_vain(rt, &rx, me)?;
    Ok(items)
}

/// What is received, of 1 to 15, by each call of traced ends.
pub fn each_call<R: Runtime + RandomSource>(rt: R, alloc: Global) -> io::Result<Vec<u64>> {
    each_call_named::<Brand, R>(rt, alloc, UnopenedChannel::unbounded(3))
}
