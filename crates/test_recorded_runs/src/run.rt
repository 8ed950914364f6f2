//! Runs of threads on a channel, and the verdicts on what they record.

use crate::arguments::Arguments;
use crate::ends::{Heap, TestReceiver, TestSender};
use crate::random::Random;
use crate::setup::CallerSetup;
use flume::Runtime;
use flume_error::error::NoMemory;
use futures::test::MockTask;
use judge_calls::event::Event;
use judge_recorder::{Recorder, Recording, RecordingError};
use judge_search::explain::{Checked, check_calls};
use std::alloc::{AllocError, Global};
use std::random::RandomSource;
use std::{fmt, thread};
use test_support::counting::Counting;
use test_support::ends::open;

const REFUSED: u64 = 12;

#[derive(Drop)]
pub(crate) struct Run {
    pub(crate) capacity: Option<usize>,
    pub(crate) events: Vec<Event<u64>>,
}

#[derive(Clone, Copy, Drop)]
pub(crate) enum Fault {
    NoMemory,
    NoThread,
    NoRecording(RecordingError),
}

impl fmt::Display for Fault {
    fn fmt<W: fmt::Write>(&self, f: &mut fmt::Formatter<W>) -> fmt::Result {
        match self {
            Fault::NoMemory => f.write_str("out of memory"),
            Fault::NoThread => f.write_str("no thread can be started"),
            Fault::NoRecording(error) => write!(f, "{error}"),
        }
    }
}

impl From<AllocError> for Fault {
    fn from(_refused: AllocError) -> Fault {
        Fault::NoMemory
    }
}

impl From<NoMemory> for Fault {
    fn from(_refused: NoMemory) -> Fault {
        Fault::NoMemory
    }
}

impl From<RecordingError> for Fault {
    fn from(error: RecordingError) -> Fault {
        Fault::NoRecording(error)
    }
}

#[derive(Clone, Copy, Drop)]
pub(crate) struct Verdict(pub Checked);

impl fmt::Display for Verdict {
    fn fmt<W: fmt::Write>(&self, f: &mut fmt::Formatter<W>) -> fmt::Result {
        match self.0 {
            Checked::Explained => f.write_str("it is explained"),
            Checked::Breaks(place) => {
                let line = place.saturating_add(2);
                write!(f, "line {line} is the first one that nothing explains")
            }
            Checked::Unexplained(place) => {
                let line = place.saturating_add(2);
                write!(f, "nothing explains line {line}, or one behind it")
            }
            Checked::GaveUp(_) => f.write_str("the search was given up"),
            Checked::NoMemory => f.write_str("out of memory"),
        }
    }
}

/// Judges a run by a search that enters at most this many configurations.
pub(crate) fn judge(alloc: Global, run: &Run, limit: u64) -> Checked {
    let limit = usize::try_from(limit).unwrap_or(usize::MAX);
    check_calls(alloc, run.capacity, run.events.as_slice(), limit)
}

fn capacity_of(number: u64) -> Option<usize> {
    match number % 5 {
        0 => Some(0),
        1 => Some(1),
        2 => Some(2),
        3 => Some(8),
        _ => None,
    }
}

fn setup<'h, R: Runtime>(
    own: &mut Recorder<u64>,
    (tx, rx): (&TestSender<'h, R>, &TestReceiver<'h, R>),
    (recording, arguments): (&Recording, Arguments),
    (number, thread): (u64, u64),
) -> Result<CallerSetup<'h, R>, Fault> {
    let sender = match thread % 3 {
        1 => None,
        _ => Some(own.clone_sender(tx)?),
    };
    let receiver = match thread % 3 {
        0 => None,
        _ => Some(own.clone_receiver(rx)?),
    };
    Ok(CallerSetup {
        recorder: recording.recorder()?,
        sender,
        receiver,
        random: Random::from_seed(number.wrapping_mul(1_000).wrapping_add(thread)),
        calls_to_make: arguments.calls.checked_div(arguments.threads).unwrap_or(0),
        message: thread.wrapping_add(1).wrapping_mul(100_000),
    })
}

fn run_threads<'h, R: Runtime + RandomSource>(
    rt: R,
    setups: Vec<CallerSetup<'h, R>>,
) -> Result<Vec<Recorder<u64>>, Fault> {
    thread::scope(
        thread::scope_env(),
        &rt,
        |scope| -> Result<Vec<Recorder<u64>>, Fault> {
            let (mut threads, mut recorders) = (Vec::new(rt.alloc()), Vec::new(rt.alloc()));
            for setup in setups {
                let Ok(task) = MockTask::new(&rt) else {
                    return Err(Fault::NoMemory);
                };
                let serves = move || setup.serve(rt.alloc(), &task);
                let Ok(thread) = scope.spawn(serves) else {
                    return Err(Fault::NoThread);
                };
                threads.push(thread).map_err(AllocError::from)?;
            }
            for thread in threads {
                recorders.push(thread.join(&rt)).map_err(AllocError::from)?;
            }
            Ok(recorders)
        },
    )
}

impl Run {
    pub(crate) fn make<R: Runtime + RandomSource>(
        rt: R,
        arguments: Arguments,
        number: u64,
    ) -> Result<Run, Fault> {
        let heap = Counting::new(rt.alloc());
        Run::on(rt, &heap, arguments, number)
    }

    fn on<R: Runtime + RandomSource>(
        rt: R,
        heap: Heap<'_>,
        arguments: Arguments,
        number: u64,
    ) -> Result<Run, Fault> {
        let capacity = capacity_of(number);
        let recording = Recording::new(rt.alloc())?;
        let mut own = recording.recorder()?;
        let (tx, rx) = open(rt, heap, capacity)?;
        let mut setups = Vec::new(rt.alloc());
        for thread in 0..arguments.threads {
            let setup = setup(
                &mut own,
                (&tx, &rx),
                (&recording, arguments),
                (number, thread),
            )?;
            setups.push(setup).map_err(AllocError::from)?;
        }
        if number % 2 == 1 {
            heap.refuse_one_in(REFUSED);
        }
        own.drop_sender(tx);
        own.drop_receiver(rx);
        let mut recorders = run_threads(rt, setups)?;
        recorders.push(own).map_err(AllocError::from)?;
        let events = recording.events(recorders)?;
        Ok(Run { capacity, events })
    }
}
