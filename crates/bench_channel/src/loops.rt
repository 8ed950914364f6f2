//! A loop over a channel as a future. It polls on until a call of the channel has to wait.
ghost use Rattle.futures.specs.Poll.{OnPending};
ghost use Rattle.futures.specs.Task.{IsArmed, Keeps};

use crate::bench::Ends;
use flume::Waits;
use flume::polled::{RecvFut, SendFut};
use futures::task::{Context, Poll};
use futures::{Future, ready};

#[derive(Clone, Copy)]
pub(crate) struct Calls {
    sends: bool,
    alternates: bool,
    // What is added to the last message to make the next.
    adds: usize,
}

pub(crate) const SENDS: Calls = Calls {
    sends: true,
    alternates: false,
    adds: 1,
};

pub(crate) const RECEIVES: Calls = Calls {
    sends: false,
    alternates: false,
    adds: 0,
};

/// It sends 0, receives, sends the number after the one that it received, and so on.
pub(crate) const SENDS_FIRST: Calls = Calls {
    sends: true,
    alternates: true,
    adds: 1,
};

/// It receives, sends what it received, and so on.
pub(crate) const RECEIVES_FIRST: Calls = Calls {
    sends: false,
    alternates: true,
    adds: 0,
};

#[derive(Drop)]
enum Call<'a, R: Waits> {
    Sends(SendFut<'a, usize, R>),
    Receives(RecvFut<'a, usize, R>),
}

impl<'a, R: Waits> Call<'a, R> {
    #[inline(always)]
    fn new(ends: &'a Ends<R>, sends: bool, message: usize) -> Self {
        if sends {
            Call::Sends(ends.tx.send_async(message))
        } else {
            Call::Receives(ends.rx.recv_async())
        }
    }

    // The message that was sent or received. `None`: disconnected, or out of memory.
    #[inline(always)]
    fn poll(&mut self, message: usize, cx: &mut Context<'_>) -> Poll<Option<usize>>
        ensures armed { OnPending result (IsArmed cx.new) }
        ensures kept { Keeps cx.old cx.new }
    {
        match self {
            Call::Sends(send) => match ready!(send.poll(cx)) {
                Ok(()) => Poll::Ready(Some(message)),
                Err(_) => Poll::Ready(None),
            },
            Call::Receives(receive) => Poll::Ready(ready!(receive.poll(cx)).ok()),
        }
    }
}

/// Calls of a channel, one after the other. It gives the sum of what was received.
#[derive(Drop)]
pub(crate) struct Loop<'a, R: Waits> {
    ends: &'a Ends<R>,
    calls: Calls,
    call: Call<'a, R>,
    sends: bool,
    message: usize,
    left: usize,
    sum: usize,
}

impl<'a, R: Waits> Loop<'a, R> {
    pub(crate) fn new(ends: &'a Ends<R>, calls: Calls, left: usize) -> Self {
        Loop {
            ends,
            calls,
            call: Call::new(ends, calls.sends, 0),
            sends: calls.sends,
            message: 0,
            left,
            sum: 0,
        }
    }

    #[inline(always)]
    fn begin_next(&mut self, message: usize) {
        if !self.sends {
            self.sum = self.sum.wrapping_add(message);
        }
        self.message = message.wrapping_add(self.calls.adds);
        self.sends = self.sends != self.calls.alternates;
        self.call = Call::new(self.ends, self.sends, self.message);
    }
}

impl<R: Waits> Future for Loop<'_, R> {
    type Output = usize;

    fn poll(&mut self, cx: &mut Context<'_>) -> Poll<usize> {
        for left in (0..self.left).rev() {
            let Some(message) = ready!(self.call.poll(self.message, cx)) else {
                break;
            };
            self.begin_next(message);
            self.left = left;
        }
        Poll::Ready(self.sum)
    }
}
