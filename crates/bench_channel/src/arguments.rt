//! What the program is asked to time.
use crate::fault::Fault;

#[derive(Clone, Copy)]
pub(crate) enum Shape {
    Seq,
    Spsc,
    Mpsc,
    Mpmc,
    SeqMany,
    SpscMany,
    MpmcMany,
    Oneshot,
    Inout,
    TryPair,
    Plain,
    AuditPair,
    CheckPair,
    PollPair,
    PollRecvPark,
    PollSendPark,
    AsyncPair,
    AsyncJoin,
    AsyncPing,
    Pending,
    PendingDrop,
    SelectSeq,
    SelectRx,
    CrowdPoll,
    CrowdRandom,
    CrowdWithdraw,
    CrowdCancel,
    CrowdSend,
    CrowdFutures,
    FloorLock,
    FloorLine,
}

// The capacities at which a shape doesn't wait for ever.
#[derive(Clone, Copy)]
enum At {
    Any,
    NotZero,
    Unbounded,
    AboveZero,
}

const SHAPES: &[(&str, Shape, At)] = &[
    ("seq", Shape::Seq, At::Unbounded),
    ("spsc", Shape::Spsc, At::Any),
    ("mpsc", Shape::Mpsc, At::Any),
    ("mpmc", Shape::Mpmc, At::Any),
    ("seq_many", Shape::SeqMany, At::Unbounded),
    ("spsc_many", Shape::SpscMany, At::Any),
    ("mpmc_many", Shape::MpmcMany, At::Any),
    ("oneshot", Shape::Oneshot, At::NotZero),
    ("inout", Shape::Inout, At::NotZero),
    ("try_pair", Shape::TryPair, At::NotZero),
    ("plain", Shape::Plain, At::Unbounded),
    ("audit_pair", Shape::AuditPair, At::NotZero),
    ("check_pair", Shape::CheckPair, At::NotZero),
    ("poll_pair", Shape::PollPair, At::NotZero),
    ("poll_recv_park", Shape::PollRecvPark, At::Any),
    ("poll_send_park", Shape::PollSendPark, At::AboveZero),
    ("async_pair", Shape::AsyncPair, At::NotZero),
    ("async_join", Shape::AsyncJoin, At::Any),
    ("async_ping", Shape::AsyncPing, At::Any),
    ("pending", Shape::Pending, At::Any),
    ("pending_drop", Shape::PendingDrop, At::Any),
    ("select_seq", Shape::SelectSeq, At::NotZero),
    ("select_rx", Shape::SelectRx, At::Any),
    ("crowd_poll", Shape::CrowdPoll, At::AboveZero),
    ("crowd_random", Shape::CrowdRandom, At::AboveZero),
    ("crowd_withdraw", Shape::CrowdWithdraw, At::AboveZero),
    ("crowd_cancel", Shape::CrowdCancel, At::AboveZero),
    ("crowd_send", Shape::CrowdSend, At::AboveZero),
    ("crowd_futures", Shape::CrowdFutures, At::AboveZero),
    ("floor_lock", Shape::FloorLock, At::Unbounded),
    ("floor_line", Shape::FloorLine, At::Unbounded),
];

impl At {
    fn allows(self, capacity: Option<usize>) -> bool {
        match self {
            At::Any => true,
            At::NotZero => capacity != Some(0),
            At::Unbounded => capacity.is_none(),
            At::AboveZero => matches!(capacity, Some(1..)),
        }
    }
}

#[derive(Clone, Copy)]
pub(crate) struct Arguments {
    pub(crate) shape: Shape,
    pub(crate) capacity: Option<usize>,
    pub(crate) messages: usize,
}

impl Arguments {
    pub(crate) fn read(words: &[String]) -> Result<Arguments, Fault> {
        let [shape, capacity, messages] = words else {
            return Err(if words.is_empty() {
                Fault::NoWords
            } else {
                Fault::WrongWords
            });
        };
        let (Some((shape, at)), Some(capacity), Ok(messages)) = (
            shape_named(shape),
            capacity_of(capacity),
            messages.parse(),
        ) else {
            return Err(Fault::WrongWords);
        };
        if !at.allows(capacity) {
            return Err(Fault::WrongCapacity);
        }
        Ok(Arguments {
            shape,
            capacity,
            messages,
        })
    }
}

fn capacity_of(word: &str) -> Option<Option<usize>> {
    match word {
        "unbounded" => Some(None),
        _ => word.parse().ok().map(Some),
    }
}

fn shape_named(word: &str) -> Option<(Shape, At)> {
    for (name, shape, at) in SHAPES.iter() {
        if *name == word {
            return Some((*shape, *at));
        }
    }
    None
}
