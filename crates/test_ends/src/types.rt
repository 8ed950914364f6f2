//! Which types of `flume` threads share, and which only move into one.
use flume::polled::{RecvFut, RecvStream, SendFut, SendSink};
use flume::{Drain, IntoIter, Iter, Receiver, Sender, TryIter, Waits, WeakSender};

fn is_send<T: Send>() {}

fn is_send_and_sync<T: Send + Sync>() {}

fn each_type_is<R: Waits + Send + Sync + 'static>(_rt: R) {
    is_send_and_sync::<Sender<u64, R>>();
    is_send_and_sync::<Receiver<u64, R>>();
    is_send_and_sync::<WeakSender<u64, R>>();
    is_send::<IntoIter<u64, R>>();
    is_send::<Iter<'static, u64, R>>();
    is_send::<TryIter<'static, u64, R>>();
    is_send::<Drain<'static, u64>>();
    is_send::<SendFut<'static, u64, R>>();
    is_send::<SendSink<'static, u64, R>>();
    is_send::<RecvFut<'static, u64, R>>();
    is_send::<RecvStream<'static, u64, R>>();
}

#[test]
fn ends_are_shared_by_threads_and_what_is_made_of_them_goes_into_one(rt: HostRuntime) {
    each_type_is(rt);
}
