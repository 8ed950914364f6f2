//! Why an iterator ended.
use crate::fixtures::{is, unwrap};
use flume::error::RecvTimeoutError;
use std::time::Duration;
use test_support::counting::Counting;
use test_support::ends::one_hour;

// An iterator that is refused memory to wait says so, until its next message.
macro_rules! tells_of_a_refusal {
    ($rt:ident, $heap:ident, $tx:ident, $messages:expr) => {{
        let mut messages = $messages;
        is(&$rt, (messages.fault(), messages.ended().is_err()), (false, false));
        $heap.refuse(true);
        is(&$rt, messages.next(), None);
        is(&$rt, (messages.fault(), messages.ended().is_err()), (true, true));
        $heap.refuse(false);
        is(&$rt, ($tx.try_send(1).ok(), messages.next()), (Some(()), Some(1)));
        is(&$rt, (messages.fault(), messages.ended().is_err()), (false, false));
    }};
}

#[test]
fn an_iterator_says_that_it_was_refused_memory_or_is_late(rt: HostRuntime) {
    let heap = Counting::new(rt.alloc());
    let (tx, rx) = unwrap(&rt, flume::on(rt).allocator(&heap).bounded::<u64>(1));
    tells_of_a_refusal!(rt, heap, tx, rx.iter());
    tells_of_a_refusal!(rt, heap, tx, unwrap(&rt, rx.clone()).into_iter());
    tells_of_a_refusal!(rt, heap, tx, rx.iter_timeout(one_hour()));
    let mut messages = rx.iter_timeout(Duration::ZERO);
    is(&rt, (messages.next(), messages.fault()), (None, false));
    is(&rt, messages.ended(), Err(RecvTimeoutError::Timeout));
    let mut messages = rx.try_iter();
    is(&rt, (messages.next(), messages.fault()), (None, false));
}
