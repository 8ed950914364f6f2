//! Requests and replies: two clients ask one server. Each has a channel of its own for the replies.
ghost use Rattle.std.specs.Prelude.{◌≡◌, true, false, not, [], ◌∷◌, IfOk};
ghost use Rattle.flume.specs.Parties.{party_of};
ghost use Rattle.flume.specs.Callers.{HasMadeCalls};
ghost use Rattle.flume_laws.specs.Forwards.{replies_to};
ghost use Rattle.example_exchange.specs.Asking.{HasAsked, HasAnswered, is_of_second, half_of};
ghost use Rattle.example_exchange.specs.Halving.{halves};

use crate::threads::Received;
use flume::traced::{ChannelName, ChannelParty, TracedReceiver, TracedSender, UnopenedChannel};
use flume::{RecvError, Runtime, Waits};
use std::alloc::Global;
use std::io;
use std::io::ErrorKind;
use std::marker::Brand;
use std::thread::join;

/// What one of two clients asks for: the half of a number.
#[derive(Drop)]
pub struct Question {
    pub of_second: bool,
    pub number: u64,
}

/// What a client ended with: its party among those who ask, and its replies.
#[derive(Drop)]
pub struct Asked<R: Waits, J: ChannelName, K: ChannelName> {
    pub me: ChannelParty<Question, J>,
    pub replies: Received<R, K>,
}

/// Who receives the replies to one client.
#[derive(Drop)]
pub struct Reader<R: Waits, K: ChannelName> {
    pub rx: TracedReceiver<u64, R, K>,
    pub me: ChannelParty<u64, K>,
}

/// Who sends replies to one client.
#[derive(Drop)]
pub struct Writer<R: Waits, K: ChannelName> {
    pub tx: TracedSender<u64, R, K>,
    pub me: ChannelParty<u64, K>,
}

/// The server, by its receiver and party, and by who sends its replies to each client.
#[derive(Drop)]
pub struct Server<R: Waits, J: ChannelName, K: ChannelName, L: ChannelName> {
    pub rx: TracedReceiver<Question, R, J>,
    pub me: ChannelParty<Question, J>,
    pub first: Writer<R, K>,
    pub second: Writer<R, L>,
}

/// Asks for the half of each number, and waits for the reply before it asks for the next. Drops the
/// sender.
#[tactic(auto, using(flume_laws::proofs::LoopLemmas::call_steps))]
pub fn ask_all<R: Waits, J: ChannelName, K: ChannelName>(
    alloc: Global,
    tx: TracedSender<Question, R, J>,
    mut me: ChannelParty<Question, J>,
    reader: Reader<R, K>,
    of_second: bool,
    numbers: &[u64],
) -> io::Result<Asked<R, J, K>>
    ensures asked { IfOk result (λ r. HasAsked of_second numbers.now me r.me
        reader.me r.replies.me r.replies.items.items) }
{
    let Reader {
        rx,
        me: mut receiver,
    } = reader;
    let mut items = Vec::new(alloc);
    for number in numbers {
        let number = *number;
        tx.send(&mut me, Question { of_second, number })?;
        items.push(rx.recv(&mut receiver)?)?;
    }
    let replies = Received {
        rx,
        me: receiver,
        items,
    };
    Ok(Asked { me, replies })
}

/// Sends half of the number to who asked.
#[tactic(auto, using(flume_laws::proofs::LoopLemmas::one_call_steps))]
fn reply<R: Waits, K: ChannelName, L: ChannelName>(
    question: Question,
    first: &mut Writer<R, K>,
    second: &mut Writer<R, L>,
) -> io::Result<()>
    ensures first { IfOk result (λ _. HasMadeCalls first.old.me first.new.me
        (replies_to (λ asked. not (is_of_second asked)) half_of (question ∷ [])) []) }
    ensures second { IfOk result (λ _. HasMadeCalls second.old.me second.new.me
        (replies_to is_of_second half_of (question ∷ [])) []) }
{
    let half = question.number / 2;
    if question.of_second {
        Ok(second.tx.send(&mut second.me, half)?)
    } else {
        Ok(first.tx.send(&mut first.me, half)?)
    }
}

/// Replies to each question, until all clients are gone.
#[tactic(auto, using(flume_laws::proofs::ReplyLemmas::reply_steps))]
pub fn reply_to_all<R: Waits, J: ChannelName, K: ChannelName, L: ChannelName>(
    rt: R,
    mut server: Server<R, J, K, L>,
) -> io::Result<Server<R, J, K, L>>
    ensures answered { IfOk result (λ r. HasAnswered server.me r.me server.first.me r.first.me
        server.second.me r.second.me) }
{
    for _ in rt.forever() {
        match server.rx.recv(&mut server.me) {
            Ok(question) => reply(question, &mut server.first, &mut server.second)?,
            Err(RecvError::Disconnected) => return Ok(server),
            Err(error) => return Err(error.into()),
        }
    }
    unreachable!()
}

/// Two clients ask, until both are done.
fn ask_both<R, J, K, L>(
    rt: R,
    alloc: Global,
    tx: TracedSender<Question, R, J>,
    parties: (ChannelParty<Question, J>, ChannelParty<Question, J>),
    readers: (Reader<R, K>, Reader<R, L>),
    first: &[u64],
    second: &[u64],
) -> io::Result<(Asked<R, J, K>, Asked<R, J, L>)>
where
    R: Runtime,
    J: ChannelName + Send + Sync,
    K: ChannelName + Send + Sync,
    L: ChannelName + Send + Sync,
    ensures first { IfOk result (λ r. HasAsked false first.now parties.0 r.0.me
        readers.0.me r.0.replies.me r.0.replies.items.items) }
    ensures second { IfOk result (λ r. HasAsked true second.now parties.1 r.1.me
        readers.1.me r.1.replies.me r.1.replies.items.items) }
{
    let ((a, b), (one, other)) = (parties, readers);
    let other_tx = tx.clone()?;
    let (one, other) = join(
        &rt,
        || ask_all(alloc, tx, a, one, false, first),
        || ask_all(alloc, other_tx, b, other, true, second),
    );
    Ok((one?, other?))
}

/// What the clients and the server ended with.
#[derive(Drop)]
struct Ran<R: Runtime, J: ChannelName, K: ChannelName, L: ChannelName> {
    one: Asked<R, J, K>,
    other: Asked<R, J, L>,
    server: Server<R, J, K, L>,
}

/// Two clients ask, and one server replies.
fn run<R, J, K, L>(
    rt: R,
    alloc: Global,
    tx: TracedSender<Question, R, J>,
    parties: (ChannelParty<Question, J>, ChannelParty<Question, J>),
    readers: (Reader<R, K>, Reader<R, L>),
    server: Server<R, J, K, L>,
    first: &[u64],
    second: &[u64],
) -> io::Result<Ran<R, J, K, L>>
where
    R: Runtime,
    J: ChannelName + Send + Sync,
    K: ChannelName + Send + Sync,
    L: ChannelName + Send + Sync,
    ensures first { IfOk result (λ r. HasAsked false first.now parties.0 r.one.me
        readers.0.me r.one.replies.me r.one.replies.items.items) }
    ensures second { IfOk result (λ r. HasAsked true second.now parties.1 r.other.me
        readers.1.me r.other.replies.me r.other.replies.items.items) }
    ensures answered { IfOk result (λ r. HasAnswered server.me r.server.me
        server.first.me r.server.first.me server.second.me r.server.second.me) }
{
    let (asked, server) = join(
        &rt,
        || ask_both(rt, alloc, tx, parties, readers, first, second),
        || reply_to_all(rt, server),
    );
    let (one, other) = asked?;
    let server = server?;
    Ok(Ran { one, other, server })
}

/// Who sends the replies to one client, and what was received of them.
type Replies<R, K> = (Writer<R, K>, Received<R, K>);

/// Two clients ask over a channel of this name. The server sends each the halves of its numbers.
fn ask_over<R, J, K, L>(
    rt: R,
    alloc: Global,
    questions: UnopenedChannel,
    writers: (Writer<R, K>, Writer<R, L>),
    readers: (Reader<R, K>, Reader<R, L>),
    first: &[u64],
    second: &[u64],
) -> io::Result<(Replies<R, K>, Replies<R, L>)>
where
    R: Runtime,
    J: ChannelName + Send + Sync,
    K: ChannelName + Send + Sync,
    L: ChannelName + Send + Sync,
    requires named { questions ≡ J.identity }
    requires parts { questions.parts ≡ 3 }
    ensures first { IfOk result (λ r. HasMadeCalls writers.0.me r.0.0.me (halves first.now) []
        × HasMadeCalls readers.0.me r.0.1.me [] r.0.1.items.items) }
    ensures second { IfOk result (λ r. HasMadeCalls writers.1.me r.1.0.me (halves second.now) []
        × HasMadeCalls readers.1.me r.1.1.me [] r.1.1.items.items) }
{
    let (tx, rx, mut me) = flume::on(rt).traced::<Question, J>(questions)?;
    let parties = (me.split_off(1), me.split_off(1));
    let (first_writer, second_writer) = writers;
    let server = Server {
        rx,
        me,
        first: first_writer,
        second: second_writer,
    };
    let Ran {
        one,
        other,
        mut server,
    } = run(rt, alloc, tx, parties, readers, server, first, second)?;
    server.me.merge(one.me);
    server.me.merge(other.me);
    let Some(0) = server.rx.settle(&mut server.me) else {
        return Err(io::Error::new(ErrorKind::Other, "questions are left"));
    };
    Ok(((server.first, one.replies), (server.second, other.replies)))
}

/// Opens a channel of replies, for a writer and a reader.
fn open_replies<R: Runtime, K: ChannelName>(
    rt: R,
    channel: UnopenedChannel,
) -> io::Result<(Writer<R, K>, Reader<R, K>)>
    requires named { channel ≡ K.identity }
    requires parts { channel.parts ≡ 2 }
    ensures writer { IfOk result (λ r. r.0.me ≡ party_of 1 []) }
    ensures reader { IfOk result (λ r. r.1.me ≡ party_of 1 []) }
{
    let (tx, rx, mut me) = flume::on(rt).traced::<u64, K>(channel)?;
    let writer = Writer {
        tx,
        me: me.split_off(1),
    };
    Ok((writer, Reader { rx, me }))
}

/// The replies to two clients, over these three channels.
pub fn ask_named<R, J, K, L>(
    rt: R,
    alloc: Global,
    questions: UnopenedChannel,
    replies: (UnopenedChannel, UnopenedChannel),
    first: &[u64],
    second: &[u64],
) -> io::Result<(Vec<u64>, Vec<u64>)>
where
    R: Runtime,
    J: ChannelName + Send + Sync,
    K: ChannelName + Send + Sync,
    L: ChannelName + Send + Sync,
    requires named { (questions ≡ J.identity) × (replies.0 ≡ K.identity)
        × (replies.1 ≡ L.identity) }
    requires parts { (questions.parts ≡ 3) × (replies.0.parts ≡ 2) × (replies.1.parts ≡ 2) }
    ensures halved { IfOk result (λ r. (r.0.items ≡ halves first.now)
        × (r.1.items ≡ halves second.now)) }
{
    let (to_first, from_first) = open_replies::<R, K>(rt, replies.0)?;
    let (to_second, from_second) = open_replies::<R, L>(rt, replies.1)?;
    let writers = (to_first, to_second);
    let readers = (from_first, from_second);
    let (one, other) = ask_over::<R, J, K, L>(
        rt, alloc, questions, writers, readers, first, second,
    )?;
    let (writer, mut one) = one;
    one.me.merge(writer.me);
    let (writer, mut other) = other;
    other.me.merge(writer.me);
    let Some(0) = one.rx.settle(&mut one.me) else {
        return Err(io::Error::new(ErrorKind::Other, "replies are left"));
    };
    let Some(0) = other.rx.settle(&mut other.me) else {
        return Err(io::Error::new(ErrorKind::Other, "replies are left"));
    };
    Ok((one.items, other.items))
}

/// Two clients ask one server for the half of each of their numbers, and wait for each reply. What
/// each gets are the halves of its own numbers, in order.
pub fn ask<R: Runtime>(
    rt: R,
    alloc: Global,
    first: &[u64],
    second: &[u64],
) -> io::Result<(Vec<u64>, Vec<u64>)>
    ensures halved { IfOk result (λ r. (r.0.items ≡ halves first.now)
        × (r.1.items ≡ halves second.now)) }
{
    let questions = UnopenedChannel::bounded(1, 3);
    let replies = (
        UnopenedChannel::bounded(1, 2),
        UnopenedChannel::bounded(1, 2),
    );
    ask_named::<R, Brand, Brand, Brand>(rt, alloc, questions, replies, first, second)
}
