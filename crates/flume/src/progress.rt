//! How far an iterator over received messages has come.
ghost use Rattle.std.specs.Prelude.{◌≡◌, ◌+◌, ◌-◌, ◌^◌, true, false, None};
ghost use Rattle.std.specs.Result.{result_ok};
ghost use Rattle.flume.specs.Iterators.{is_refused};
ghost use Rattle.flume.specs.PartyIterators.{ReceivesItem, TriesItem};

use crate::receiver::Receiver;
use crate::shared::Waits;
use flume_core::error::RecvError;
use flume_keeper::Keeper;
use std::alloc::Allocator;
use std::sync::Wait;

#[derive(Drop)]
pub(crate) struct Progress {
    // So that a loop over the iterator is proved to end. After the last one `next` hangs; no run
    // comes that far.
    calls_left: u64,
    pub(crate) fault: bool,
}

impl Progress {
    pub(crate) const fn new() -> Progress
        ensures calls_left { result.calls_left ≡ 2 ^ 64 - 1 }
        ensures fault { result.fault ≡ false }
    {
        Progress {
            calls_left: u64::MAX,
            fault: false,
        }
    }

    pub(crate) fn count<R: Wait>(&mut self, rt: &R)
        ensures calls_left { self.old.calls_left ≡ self.new.calls_left + 1 }
        ensures fault { self.new.fault ≡ self.old.fault }
    {
        if self.calls_left == 0 {
            for _ in rt.forever() {}
            unreachable!()
        }
        self.calls_left -= 1;
    }

    #[inline(always)]
    pub(crate) fn receive<T: Drop, R: Waits, A: Allocator + Copy, K: Keeper<T, A>>(
        &mut self,
        receiver: &Receiver<T, R, A, K>,
        me: &mut K::Party,
    ) -> Option<T>
        ensures calls_left { self.old.calls_left ≡ self.new.calls_left + 1 }
        ensures fault { self.new.fault ≡ true → result ≡ None }
        ensures received { ReceivesItem K.did me.old result self.new.fault me.new }
    {
        self.count(&receiver.shared().rt);
        self.item(receiver.recv_as(me))
    }

    #[inline(always)]
    pub(crate) fn try_receive<T: Drop, R: Waits, A: Allocator + Copy, K: Keeper<T, A>>(
        &mut self,
        receiver: &Receiver<T, R, A, K>,
        me: &mut K::Party,
    ) -> Option<T>
        ensures calls_left { self.old.calls_left ≡ self.new.calls_left + 1 }
        ensures tried { TriesItem K.did me.old result me.new }
    {
        self.count(&receiver.shared().rt);
        receiver.try_recv_as(me).ok()
    }

    fn item<T: Drop>(&mut self, answer: Result<T, RecvError>) -> Option<T>
        ensures item { result ≡ result_ok answer }
        ensures fault { self.new.fault ≡ is_refused answer }
        ensures calls_left { self.new.calls_left ≡ self.old.calls_left }
    {
        self.fault = matches!(answer, Err(RecvError::NoMemory));
        answer.ok()
    }
}
