//! Lists of messages that one call sends, or receives.
use crate::fixtures::{channel, is, unwrap};
use flume::error::{RecvError, SendError, TryRecvError, TrySendError};

macro_rules! list {
    ($rt:ident, $($number:expr),*) => { unwrap(&$rt, vec![in $rt.alloc(); $($number),*]) };
}

#[test]
fn lists_go_in_order_up_to_the_room_and_the_number_and_the_rest_comes_back(rt: HostRuntime) {
    let (tx, rx) = channel(&rt, (rt, rt.alloc()), Some(3));
    let (mut got, left) = (list!(rt, 0), list!(rt, 4, 5));
    let sent = tx.try_send_many(list!(rt, 1, 2, 3, 4, 5));
    is(&rt, sent, Err(TrySendError::Full(left)));
    is(&rt, rx.try_recv_many(&mut got, 2), Ok(2));
    is(&rt, tx.send_many(list!(rt, 6, 7)), Ok(()));
    is(&rt, rx.recv_many(&mut got, 64), Ok(3));
    is(&rt, got.as_slice(), [0, 1, 2, 3, 6, 7].as_slice());
    let none = rx.try_recv_many(&mut got, 64);
    is(&rt, none, Err(TryRecvError::Empty));
    drop(tx);
    let none = rx.recv_many(&mut got, 64);
    is(&rt, none, Err(RecvError::Disconnected));
    let (tx, rx) = channel(&rt, (rt, rt.alloc()), Some(3));
    drop(rx);
    let (sent, back) = (tx.try_send_many(list!(rt, 1, 2)), list!(rt, 1, 2));
    is(&rt, sent, Err(TrySendError::Disconnected(back)));
    let (sent, back) = (tx.send_many(list!(rt, 3)), list!(rt, 3));
    is(&rt, sent, Err(SendError::Disconnected(back)));
}
