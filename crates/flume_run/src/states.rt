//! The state of a channel after each step of a script.
//!
//! A `Chan` shows neither its messages nor its receivers. So for each state a new channel makes the
//! steps up to there, and is then emptied by further steps.

use flume_core::chan::Chan;
use flume_core::error::NoMemory;
use flume_model::entry::{Entry, Mark};
use flume_model::step::{Kind, Reply, Step};
use std::alloc::{AllocError, Allocator};

/// What can be seen of a channel.
#[derive(Drop)]
pub(crate) struct State<A: Allocator> {
    /// The front first.
    pub(crate) queue: Vec<u64, A>,
    /// Each with its ticket.
    pub(crate) blocked: Vec<(u64, u64), A>,
    /// Last those that wait, in the order in which they began to.
    pub(crate) parked: Vec<Entry<u64, ()>, A>,
    pub(crate) capacity: Option<usize>,
    pub(crate) senders: usize,
    pub(crate) receivers: usize,
}

pub(crate) fn state_after<A: Allocator + Copy>(
    alloc: A,
    capacity: Option<usize>,
    steps: &[Step<u64>],
) -> Result<State<A>, NoMemory> {
    let mut chan = Chan::new(alloc, capacity);
    let (mut sends, mut parked) = (Vec::new(alloc), Vec::new(alloc));
    for step in steps {
        match (chan.step(*step), step) {
            (Reply::NoMemory(_), _) => return Err(NoMemory),
            (Reply::Pending(ticket), _) => sends.push(ticket).map_err(AllocError::from)?,
            (Reply::Parked(ticket), Step::Recv(kind)) => {
                parked.push((ticket, *kind)).map_err(AllocError::from)?;
            }
            _ => {}
        }
    }
    take_apart(alloc, &mut chan, &sends, &parked)
}

// `sends` and `receivers` are the tickets so far.
fn take_apart<A: Allocator + Copy>(
    alloc: A,
    chan: &mut Chan<u64, (), A>,
    sends: &[u64],
    receivers: &[(u64, Kind)],
) -> Result<State<A>, NoMemory> {
    let capacity = match chan.capacity() {
        Reply::Capacity(capacity) => capacity,
        _ => None,
    };
    let (senders, receivers_left) = (number(chan.sender_count()), number(chan.receiver_count()));
    let blocked = blocked_in(alloc, chan, sends)?;
    let queue = match chan.drain() {
        Reply::Drained(queue) => queue,
        _ => return Err(NoMemory),
    };
    let waiting = waiting_in(alloc, chan, senders, receivers)?;
    let parked = parked_in(alloc, chan, receivers, &waiting)?;
    Ok(State {
        queue,
        blocked,
        parked,
        capacity,
        senders,
        receivers: receivers_left,
    })
}

fn number<A: Allocator>(reply: Reply<u64, A>) -> usize {
    match reply {
        Reply::Number(number) => number,
        _ => 0,
    }
}

fn blocked_in<A: Allocator + Copy>(
    alloc: A,
    chan: &mut Chan<u64, (), A>,
    sends: &[u64],
) -> Result<Vec<(u64, u64), A>, NoMemory> {
    let mut blocked = Vec::new(alloc);
    for ticket in sends {
        if let Reply::Returned { message, .. } = chan.withdraw_send(*ticket) {
            blocked.push((message, *ticket)).map_err(AllocError::from)?;
        }
    }
    Ok(blocked)
}

// Closing the channel notifies those that wait, in order. Earlier notifications are taken first.
fn waiting_in<A: Allocator + Copy>(
    alloc: A,
    chan: &mut Chan<u64, (), A>,
    senders: usize,
    receivers: &[(u64, Kind)],
) -> Result<Vec<u64, A>, NoMemory> {
    let mut waiting = Vec::new(alloc);
    if let Reply::Flag(true) = chan.is_disconnected() {
        return Ok(waiting);
    }
    for _ in receivers {
        let _ = chan.next_due();
    }
    for _ in 0..senders {
        let _ = chan.drop_sender();
    }
    for _ in receivers {
        if let Some(ticket) = chan.next_due() {
            waiting.push(ticket).map_err(AllocError::from)?;
        }
    }
    Ok(waiting)
}

fn parked_in<A: Allocator + Copy>(
    alloc: A,
    chan: &mut Chan<u64, (), A>,
    receivers: &[(u64, Kind)],
    waiting: &[u64],
) -> Result<Vec<Entry<u64, ()>, A>, NoMemory> {
    let mut parked = Vec::new(alloc);
    for (ticket, kind) in receivers {
        let mark = match chan.withdraw(*ticket) {
            Reply::Got(message) => Mark::Filled(message),
            Reply::Gone { .. } if !waiting.contains(ticket) => Mark::Woken,
            _ => continue,
        };
        park(&mut parked, *ticket, *kind, mark)?;
    }
    for ticket in waiting {
        if let Some((ticket, kind)) = receivers.iter().find(|it| it.0 == *ticket) {
            park(&mut parked, *ticket, *kind, Mark::Waiting)?;
        }
    }
    Ok(parked)
}

fn park<A: Allocator>(
    parked: &mut Vec<Entry<u64, ()>, A>,
    ticket: u64,
    kind: Kind,
    mark: Mark<u64>,
) -> Result<(), NoMemory> {
    let notice = ();
    Ok(
        parked
            .push(Entry {
                ticket,
                kind,
                mark,
                notice,
            })
            .map_err(AllocError::from)?,
    )
}
