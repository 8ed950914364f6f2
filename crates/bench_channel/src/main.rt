//! Times a channel in one shape, and prints nanoseconds a message.
#![tactic(auto)]

mod arguments;
mod audited;
mod bench;
mod by_hand;
mod crowds;
mod fault;
mod floor;
mod loops;
mod many;
mod one_thread;
mod polled;
mod select;
mod threads;

use crate::arguments::Arguments;
use crate::bench::time;
use crate::fault::Fault;
use futures::test::MockTask;
use std::process::ExitCode;
use std::time::Duration;
use std::{env, io};

const USAGE: &str = "bench_channel SHAPE CAPACITY MESSAGES

Prints how many nanoseconds a message takes.

CAPACITY   unbounded, or a number

SHAPE
seq             one thread sends all, and then receives all; unbounded
spsc            one thread sends, one receives
mpsc            four threads send, one receives
mpmc            four threads send, four receive
seq_many        seq, 64 messages a call; unbounded
spsc_many       spsc, up to 64 messages a call
mpmc_many       mpmc, up to 64 messages a call
oneshot         a channel made, one message sent and received, both ends dropped; not at 0
inout           one message sent and received, again and again, by one thread; not at 0
try_pair        the same by try_send and try_recv; not at 0
plain           a user's loop: one half sent and received in turn, the other sent and taken by an
                iterator, with `?` and an error of its own; unbounded
audit_pair      try_pair as steps of an audited channel, by one seat; not at 0
check_pair      the history of try_pair checked: two of its steps a message; not at 0
poll_pair       a send polled by hand, and then a receive, each ready at once; not at 0
poll_recv_park  a receive polled, which waits, a try_send, and the receive polled again
poll_send_park  a send polled on a full channel, a try_recv, and the send polled again; only at a
                number above 0
async_pair      one message sent and received, again and again, by one task; not at 0
async_join      a future that sends all, joined in one task with one that receives all
async_ping      two threads, a task each, send half of the messages to and fro over two channels
pending         so many receives wait; then a message for each is sent, and it polled again
pending_drop    so many receives wait, and each is dropped, the newest first
select_seq      a message sent into one of four channels in turn, and received by a selection over
                the four; not at 0
select_rx       four threads send, each into a channel of its own, and one receives by selections
                over the four

SHAPE of a crowd: CAPACITY is a number above 0, and says how many stand on one channel all along;
MESSAGES says how many operations are timed, and gathering the crowd isn't
crowd_poll      a parked receiver in the middle asks again, and waits on
crowd_random    a parked receiver asks again, and waits on: another one each time
crowd_withdraw  a parked receiver in the middle leaves, and another parks
crowd_cancel    a blocked send in the middle is withdrawn, and another blocks
crowd_send      a message is sent, the receiver that it fills is told and takes it, and another
                parks
crowd_futures   a message is sent, the receive that waited longest is polled and takes it, and
                another receive is polled, which waits

SHAPE without a channel, to compare with; CAPACITY is unbounded
floor_lock      one thread takes a lock and lets it go, twice
floor_line      one thread writes 8 bytes into a cache line once it is empty, another empties it";

fn main(rt: HostRuntime) -> io::Result<ExitCode> {
    match read_arguments(&rt)? {
        Ok(arguments) => {
            let task = MockTask::new(&rt)?;
            print(
                &rt,
                arguments.messages,
                time(rt, rt.alloc(), &task, &arguments),
            )
        }
        Err(fault) => print(&rt, 0, Err(fault)),
    }
}

fn read_arguments(rt: &HostRuntime) -> io::Result<Result<Arguments, Fault>> {
    let words: Vec<String> = env::args(rt)?.skip(1).collect(rt.alloc())?;
    Ok(Arguments::read(&words))
}

fn print(rt: &HostRuntime, messages: usize, time: Result<Duration, Fault>) -> io::Result<ExitCode> {
    match time {
        Ok(time) => {
            let hundredths = time.as_nanos().saturating_mul(100) / (messages.max(1) as u128);
            println!(rt; "{}.{:02}", hundredths / 100, hundredths % 100)?;
            Ok(ExitCode::SUCCESS)
        }
        Err(Fault::NoWords) => {
            println!(rt; "{USAGE}")?;
            Ok(ExitCode::SUCCESS)
        }
        Err(fault) => {
            eprintln!(rt; "{fault}")?;
            Ok(ExitCode::from(fault.status()))
        }
    }
}
