//! One thread owns an account and answers requests. Each request carries the sender of its reply.
#![tactic(auto)]

use flume::{Receiver, Runtime, Sender, Waits};
use std::{io, thread};

#[derive(Drop)]
enum Request<R: Waits> {
    /// Adds this much. The answer is the balance.
    PayIn { amount: u64, reply: Sender<u64, R> },
    /// Takes this much away, if there is as much. The answer says whether there was.
    PayOut { amount: u64, reply: Sender<bool, R> },
}

/// Each call is a request to the thread that owns the account.
#[derive(Drop)]
struct Account<R: Waits> {
    rt: R,
    requests: Sender<Request<R>, R>,
}

impl<R: Runtime> Account<R> {
    fn pay_in(&self, amount: u64) -> io::Result<u64> {
        let (reply, answer) = flume::on(self.rt).bounded(1)?;
        self.ask(Request::PayIn { amount, reply }, &answer)
    }

    fn pay_out(&self, amount: u64) -> io::Result<bool> {
        let (reply, answer) = flume::on(self.rt).bounded(1)?;
        self.ask(Request::PayOut { amount, reply }, &answer)
    }

    fn ask<T: Drop>(&self, request: Request<R>, answer: &Receiver<T, R>) -> io::Result<T> {
        self.requests.send(request)?;
        Ok(answer.recv()?)
    }
}

fn main(rt: HostRuntime) -> io::Result<()> {
    let (requests, received) = flume::on(rt).bounded(4)?;
    let owner = thread::spawn(&rt, move || own(&received))?;
    let account = Account { rt, requests };
    visit(&rt, &account)?;
    save_twice(account)?;
    println!(rt; "two saved 10 each: {} left", owner.join(&rt)?)
}

fn visit<R: Runtime + Print>(rt: &R, account: &Account<R>) -> io::Result<()> {
    println!(rt; "100 in: now {}", account.pay_in(100)?)?;
    println!(rt; "70 out: {}", account.pay_out(70)?)?;
    println!(rt; "50 out: {}", account.pay_out(50)?)
}

/// Saves in two threads. The last sender of requests is dropped as this returns, so the owner ends.
fn save_twice<R: Runtime>(account: Account<R>) -> io::Result<()> {
    let rt = account.rt;
    let requests = account.requests.clone()?;
    let saver = Account { rt, requests };
    let saving = thread::spawn(&rt, move || save(&saver))?;
    save(&account)?;
    saving.join(&rt)
}

fn save<R: Runtime>(account: &Account<R>) -> io::Result<()> {
    for _ in 0..10 {
        account.pay_in(1)?;
    }
    Ok(())
}

/// Answers requests until nobody can send one, and returns what is left.
fn own<R: Waits>(received: &Receiver<Request<R>, R>) -> io::Result<u64> {
    let mut balance = 0;
    let mut requests = received.iter();
    for request in requests.by_ref() {
        balance = answer(balance, request);
    }
    requests.ended()?;
    Ok(balance)
}

fn answer<R: Waits>(balance: u64, request: Request<R>) -> u64 {
    match request {
        Request::PayIn { amount, reply } => {
            let balance = balance.saturating_add(amount);
            // An error means that the caller has dropped its receiver.
            let _ = reply.send(balance);
            balance
        }
        Request::PayOut { amount, reply } => {
            let left = balance.checked_sub(amount);
            let _ = reply.send(left.is_some());
            left.unwrap_or(balance)
        }
    }
}
