//! Lists of steps whose messages are texts, or can't be copied.
use crate::fixtures::unwrap;
use flume_core::chan::Chan;
use flume_core::run::run;
use flume_model::step::Step;
use flume_model::step::Step::{
    DropReceiver, DropSender, IsDisconnected, PollSend, Send, TryRecv, TrySend,
};
use std::alloc::Global;
use std::fmt::Debug;
use std::process::Abort;

#[derive(Debug, Drop)]
struct Parcel(u64);

// On a new channel of this capacity, whose first ticket is this, the steps have these replies.
fn replies_are<T: Debug + Drop>(
    (rt, alloc): (&impl Abort, Global),
    (capacity, ticket): (usize, u64),
    steps: Vec<Step<T>>,
    wanted: &str,
) {
    let mut chan: Chan<T, ()> = Chan::starting_at(alloc, Some(capacity), ticket);
    let replies = run(alloc, &mut chan, steps)
        .ok()
        .expect(rt, "there is memory");
    let text = unwrap(rt, format!(in alloc; "{replies:?}"));
    assert_eq!(rt; text.as_str(), wanted);
}

#[test]
fn messages_need_not_be_copied(rt: HostRuntime) {
    let a = rt.alloc();
    let steps = vec![in a;
        TrySend(Parcel(1)),
        TrySend(Parcel(2)),
        TryRecv,
        TryRecv,
        DropSender,
        TryRecv,
    ];
    let wanted = "[Sent { filled: None }, Full(Parcel(2)), Got(Parcel(1)), Empty, Done, Ended]";
    replies_are((&rt, a), (1, 1), unwrap(&rt, steps), wanted);
    let steps = vec![in a;
        Send(Parcel(1)),
        Send(Parcel(2)),
        DropReceiver,
        PollSend(1),
        IsDisconnected,
    ];
    let wanted = "[Sent { filled: None }, Pending(1), Done, \
        Returned { message: Parcel(2), closed: true }, Flag(true)]";
    replies_are((&rt, a), (1, 1), unwrap(&rt, steps), wanted);
}

#[test]
fn a_refused_text_comes_back(rt: HostRuntime) {
    let a = rt.alloc();
    let (one, two) = (
        unwrap(&rt, "one".to_string(a)),
        unwrap(&rt, "two".to_string(a)),
    );
    let three = unwrap(&rt, "three".to_string(a));
    let steps = vec![in a; Send(one), TrySend(two), DropReceiver, Send(three)];
    let wanted = "[Spent(Some(\"one\")), Full(\"two\"), Done, Closed(\"three\")]";
    replies_are((&rt, a), (0, u64::MAX), unwrap(&rt, steps), wanted);
}
