//! The shapes polled by hand, all in one poll of a task: no executor is in the time of a message.
use crate::arguments::Shape;
use crate::bench::{Bench, Ends, begin_anew};
use crate::one_thread::send_each;
use flume::polled::RecvFut;
use flume::{Receiver, Waits};
use futures::Future;
use futures::task::{Context, Poll};
use std::mem::forget;
use std::time::Instant;

impl<R: Waits> Bench<R> {
    pub(crate) fn in_one_poll(
        &self,
        shape: Shape,
        ends: &Ends<R>,
        start: &mut Instant,
        cx: &mut Context<'_>,
    ) -> usize {
        match shape {
            Shape::PollPair => pass_each(ends, self.messages, cx),
            Shape::PollSendPark => {
                send_each(&ends.tx, self.capacity.unwrap_or(0));
                park_sends(ends, self.messages, cx)
            }
            Shape::PollRecvPark => self.over_parked(shape, 1, ends, start, cx),
            Shape::CrowdFutures => {
                self.over_parked(shape, self.capacity.unwrap_or(0), ends, start, cx)
            }
            _ => self.over_parked(shape, self.messages, ends, start, cx),
        }
    }

    fn over_parked(
        &self,
        shape: Shape,
        standing: usize,
        ends: &Ends<R>,
        start: &mut Instant,
        cx: &mut Context<'_>,
    ) -> usize {
        let mut receives = self.park_each(standing, &ends.rx, cx);
        begin_anew(&self.rt, start);
        let sum = match shape {
            Shape::PendingDrop => drop_each(&mut receives),
            Shape::Pending => fill_each(ends, &mut receives, self.messages, false, cx),
            _ => fill_each(ends, &mut receives, self.messages, true, cx),
        };
        forget(receives);
        sum
    }

    fn park_each<'a>(
        &self,
        standing: usize,
        rx: &'a Receiver<usize, R>,
        cx: &mut Context<'_>,
    ) -> Vec<RecvFut<'a, usize, R>> {
        let mut receives = Vec::new(self.alloc);
        for _ in 0..standing {
            park(&mut receives, rx, cx);
        }
        receives
    }
}

fn park<'a, R: Waits>(
    receives: &mut Vec<RecvFut<'a, usize, R>>,
    rx: &'a Receiver<usize, R>,
    cx: &mut Context<'_>,
) {
    if receives.try_reserve(1).is_ok() {
        let mut receive = rx.recv_async();
        let _ = receive.poll(cx);
        receives.push_reserved(receive);
    }
}

fn pass_each<R: Waits>(ends: &Ends<R>, messages: usize, cx: &mut Context<'_>) -> usize {
    let mut sum = 0usize;
    for message in 0..messages {
        let _ = ends.tx.send_async(message).poll(cx);
        if let Poll::Ready(Ok(message)) = ends.rx.recv_async().poll(cx) {
            sum = sum.wrapping_add(message);
        }
    }
    sum
}

fn park_sends<R: Waits>(ends: &Ends<R>, messages: usize, cx: &mut Context<'_>) -> usize {
    let mut sum = 0usize;
    for message in 0..messages {
        let mut send = ends.tx.send_async(message);
        if send.poll(cx).is_pending() && ends.rx.try_recv().is_ok() && send.poll(cx).is_ready() {
            sum = sum.wrapping_add(message);
        }
    }
    sum
}

/// The receive that waits longest takes each message. If renewed, another begins to wait.
fn fill_each<'a, R: Waits>(
    ends: &'a Ends<R>,
    receives: &mut Vec<RecvFut<'a, usize, R>>,
    messages: usize,
    renewed: bool,
    cx: &mut Context<'_>,
) -> usize {
    let (mut sum, mut place) = (0usize, 0usize);
    for message in 0..messages {
        if place == receives.len() {
            place = 0;
        }
        if let Some(receive) = receives.get_mut(place) {
            sum = sum.wrapping_add(fill(ends, receive, message, renewed, cx));
        }
        place = place.wrapping_add(1);
    }
    sum
}

#[inline(always)]
fn fill<'a, R: Waits>(
    ends: &'a Ends<R>,
    receive: &mut RecvFut<'a, usize, R>,
    message: usize,
    renewed: bool,
    cx: &mut Context<'_>,
) -> usize {
    let sent = ends.tx.try_send(message);
    let taken = receive.poll(cx);
    if renewed {
        *receive = ends.rx.recv_async();
        let _ = receive.poll(cx);
    }
    match (sent, taken) {
        (Ok(()), Poll::Ready(Ok(message))) => message,
        _ => 0,
    }
}

fn drop_each<R: Waits>(receives: &mut Vec<RecvFut<'_, usize, R>>) -> usize {
    let mut sum = 0usize;
    for message in 0..receives.len() {
        if receives.pop().is_some() {
            sum = sum.wrapping_add(message);
        }
    }
    sum
}
