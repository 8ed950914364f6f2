//! Threads on one audited channel: it settles, and its history is a run, whatever the schedule.
ghost use Rattle.std.specs.Prelude.{◌≡◌, ◌<◌};

use crate::fixtures::{holds, unwrap};
use crate::random_steps::RandomSteps;
use flume_audit::audit::Audit;
use flume_audit::book::Book;
use flume_audit::closed::Closed;
use flume_audit::seat::Seat;
use flume_history::check::{Checked, check_history};
use flume_model::step::{Kind, Reply, Step};
use flume_script::writing::write_reply;
use std::alloc::{AllocGlobal, Global};
use std::marker::Brand;
use std::process::Abort;
use std::sync::ledger::{Blank, Ledger};
use std::sync::{Mutex, Wait};
use std::thread;
use std::thread::Threads;

const CAPACITIES: &[Option<usize>] = &[Some(0), Some(1), Some(3), None];

const SEEDS: &[u64] = &[20_261_129, 20_261_131, 20_261_133, 20_261_135];

const STEPS: usize = 400;

const RECENT: u64 = 8;

const TICKETS: usize = 2 * STEPS;

const LAST_STEPS: usize = 2 * TICKETS + 11;

const LEAST: &[(&str, u64)] = &[
    ("sent", 100),
    ("sent filled ", 100),
    ("gone filled ", 16),
    ("gone", 20),
    ("drained ", 5),
    ("pending ", 100),
    ("accepted", 20),
    ("waiting", 100),
    ("returned ", 20),
    ("returned 6 closed", 12),
    ("full ", 20),
    ("closed ", 16),
    ("empty", 20),
    ("ended", 12),
    ("noticket", 100),
    ("done", 100),
    ("unbounded", 20),
];

type ReturnedSeats<L> = Mutex<Vec<Seat<u64, L>>>;

// With the seed 0 each thread sends and tries to receive in turn; else it makes random steps.
#[derive(Clone, Copy, Drop)]
struct Plan {
    capacity: Option<usize>,
    steps: usize,
    seed: u64,
}

// Of eight random steps one sets a capacity from 0 to 4, and three withdraw.
fn step_of(plan: Plan, random_steps: &mut RandomSteps, number: usize) -> Step<u64> {
    let last = random_steps.last_ticket;
    match (plan.seed, number % 8) {
        (0, number) if number % 2 == 0 => Step::TrySend(number as u64),
        (0, _) => Step::TryRecv,
        (_, 3) => Step::SetCapacity(number / 8 % 5),
        (_, 1 | 5) => Step::Withdraw(last.saturating_sub(number as u64 / 8 % RECENT)),
        (_, 7) => Step::WithdrawSend(last.saturating_sub(number as u64 / 8 % RECENT)),
        _ => match random_steps.step() {
            Step::Recv(_) if plan.seed % 4 == 3 => Step::Send(number as u64),
            step => with_recent_ticket(step, last),
        },
    }
}

// The same step, of a recent ticket; no clone or drop of an end.
fn with_recent_ticket(step: Step<u64>, last: u64) -> Step<u64> {
    match step {
        Step::Poll(ticket) => Step::Poll(last.saturating_sub(ticket % RECENT)),
        Step::Withdraw(ticket) => Step::Withdraw(last.saturating_sub(ticket % RECENT)),
        Step::PollSend(ticket) => Step::PollSend(last.saturating_sub(ticket % RECENT)),
        Step::WithdrawSend(ticket) => Step::WithdrawSend(last.saturating_sub(ticket % RECENT)),
        Step::CloneSender | Step::DropSender => Step::Drain,
        Step::CloneReceiver | Step::DropReceiver => Step::TryRecv,
        step => step,
    }
}

fn make_steps<L: Ledger, R: Wait + Copy>(
    rt: R,
    audit: &Audit<u64, L, R>,
    mut seat: Seat<u64, L>,
    (plan, mut random_steps): (Plan, RandomSteps),
    returned: &ReturnedSeats<L>,
) {
    for number in 0..plan.steps {
        match audit.step(&mut seat, step_of(plan, &mut random_steps, number)) {
            Ok(Reply::Pending(ticket) | Reply::Parked(ticket)) => random_steps.last_ticket = ticket,
            Ok(_) => {}
            Err(_) => return,
        }
    }
    let _ = returned.lock(&rt).push(seat);
}

// Runs a thread for each seat, with a seed of its own. False: one can't be started.
fn run_threads<L, R>(
    rt: R,
    audit: &Audit<u64, L, R>,
    seats: Vec<Seat<u64, L>>,
    plan: Plan,
    returned: &ReturnedSeats<L>,
) -> bool
where
    L: Ledger + Send + Sync,
    R: Wait + Threads + Copy + Send + Sync,
{
    thread::scope(thread::scope_env(), &rt, |scope| {
        let mut state = plan.seed;
        for seat in seats {
            state = state.wrapping_add(1);
            let random_steps = RandomSteps::from_seed(state);
            let thread = move || make_steps(rt, audit, seat, (plan, random_steps), returned);
            if scope.spawn(thread).is_err() {
                return false;
            }
        }
        true
    })
}

// After the threads all that waits is withdrawn; then a woken receiver passes its wake on, and a
// blocked message comes back from a closed channel.
fn last_step(number: usize, last: u64) -> Step<u64> {
    if number < TICKETS {
        return Step::Withdraw(number as u64);
    }
    let number = number.saturating_sub(TICKETS);
    if number < TICKETS {
        return Step::WithdrawSend(number as u64);
    }
    match number.saturating_sub(TICKETS) {
        0 => Step::Drain,
        1 => Step::SetCapacity(0),
        2 => Step::Recv(Kind::Plain),
        3 => Step::Recv(Kind::Block),
        4 => Step::TrySend(5),
        5 => Step::Withdraw(last.saturating_sub(1)),
        6 => Step::Send(6),
        7 => Step::DropReceiver,
        8 => Step::PollSend(last),
        9 => Step::TrySend(7),
        _ => Step::TryRecv,
    }
}

// Makes the last steps with the first seat. False: one was refused.
fn make_last_steps<L: Ledger, R: Wait + Copy>(
    audit: &Audit<u64, L, R>,
    seats: &mut Vec<Seat<u64, L>>,
) -> bool {
    let Some(seat) = seats.first_mut() else {
        return false;
    };
    let mut last = 0;
    for number in 0..LAST_STEPS {
        match audit.step(seat, last_step(number, last)) {
            Ok(Reply::Pending(ticket) | Reply::Parked(ticket)) => last = ticket,
            Ok(_) => {}
            Err(_) => return false,
        }
    }
    true
}

fn is_right<L: Ledger>(rt: &impl Abort, alloc: Global, book: &Book<u64, L>, entries: usize) {
    let is_whole = book.history().len() == entries;
    holds(rt, ("an audit", "steps are missing"), is_whole);
    let checked = check_history(alloc, book.opening(), book.history());
    let is_run = matches!(checked, Checked::Run);
    holds(rt, ("an audit", "its history is no run"), is_run);
    let is_empty = matches!(book.channel().len(), Reply::Number(0));
    holds(rt, ("an audit", "it isn't empty"), is_empty || entries > 0);
}

// The audit settles, each step is written, and the history is a run. Adds its replies to the text.
fn audit_threads<L, R>(rt: R, blank: Blank, threads: usize, plan: Plan, text: &mut String)
where
    L: Ledger + Send + Sync,
    R: Wait + Threads + Abort + AllocGlobal + Copy + Send + Sync,
    requires name { blank.name ≡ L.name }
    requires parts { blank.parts ≡ L.parts }
    requires one_each { blank.parts ≡ threads }
    requires some { 0 < threads }
{
    let alloc = rt.alloc();
    let audit = Audit::<u64, L, R>::new(rt, alloc, blank, plan.capacity, threads);
    let (audit, seats) = unwrap(&rt, audit);
    let returned = Mutex::new(Vec::new(alloc));
    let is_done = run_threads(rt, &audit, seats, plan, &returned);
    holds(&rt, ("an audit", "a thread can't be started"), is_done);
    let mut returned = returned.into_inner();
    let last = if plan.seed == 0 { 0 } else { LAST_STEPS };
    let is_asked = last == 0 || make_last_steps(&audit, &mut returned);
    holds(&rt, ("an audit", "a step is refused"), is_asked);
    let (closed, book) = audit.close(returned);
    let is_settled = matches!(closed, Closed::Settled);
    holds(&rt, ("an audit", "it doesn't settle"), is_settled);
    let entries = threads.saturating_mul(plan.steps).saturating_add(last);
    let is_opened = book.opening() == plan.capacity;
    holds(&rt, ("an audit", "its capacity is another"), is_opened);
    is_right(&rt, alloc, &book, entries);
    for (_, reply) in book.history() {
        unwrap(&rt, write_reply(text, reply));
    }
}

fn count(text: &str, start: &str) -> u64 {
    let mut count = 0u64;
    for line in text.lines() {
        if line.starts_with(start) {
            count = count.saturating_add(1);
        }
    }
    count
}

#[test]
fn an_audit_with_no_step_settles_with_its_capacity(rt: HostRuntime) {
    let (capacity, steps, seed) = (Some(2), 0, 0);
    let plan = Plan {
        capacity,
        steps,
        seed,
    };
    let mut text = String::new(rt.alloc());
    audit_threads::<Brand, _>(rt, Blank::new(1), 1, plan, &mut text);
}

#[test]
fn four_threads_make_eight_thousand_entries_and_settle(rt: HostRuntime) {
    let (capacity, steps, seed) = (None, 2_000, 0);
    let plan = Plan {
        capacity,
        steps,
        seed,
    };
    let mut text = String::new(rt.alloc());
    audit_threads::<Brand, _>(rt, Blank::new(4), 4, plan, &mut text);
}

#[test]
fn random_steps_of_two_threads_are_a_run(rt: HostRuntime) {
    let mut text = String::new(rt.alloc());
    for &capacity in CAPACITIES {
        for &seed in SEEDS {
            let steps = STEPS;
            let plan = Plan {
                capacity,
                steps,
                seed,
            };
            audit_threads::<Brand, _>(rt, Blank::new(2), 2, plan, &mut text);
        }
    }
    for &(start, least) in LEAST {
        let count = count(text.as_str(), start);
        assert!(rt; count >= least, "{start}: {count} replies");
    }
}
