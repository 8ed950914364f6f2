//! Histories with the answer of the check to each.
use crate::fixtures::{history_of, is};
use flume_history::check::{Checked, check_history};

// Histories, each behind its answer: `run`, or the place of the first pair that is wrong.
const WORKED: &str = "
= run
unbounded
try_recv -> empty
try_send 5 -> sent
try_recv -> got 5
= 2
unbounded
try_recv -> empty
try_send 5 -> sent
try_recv -> got 6
= run
bounded 1
try_send 1 -> sent
send 2 -> pending 1
set_capacity 2 -> done
poll_send 1 -> accepted
= 2
bounded 1
try_send 1 -> sent
send 2 -> pending 1
poll_send 1 -> accepted
= 0
unbounded
try_recv -> nomemory
= run
unbounded
try_send 5 -> nomemory 5
try_recv -> empty
= run
bounded 1
try_send 1 -> sent
send 2 -> pending 1
try_recv -> nomemory
try_recv -> got 1
= run
unbounded
";

#[test]
fn the_check_answers_the_worked_histories(rt: HostRuntime) {
    for block in WORKED.trim_end().split("\n= ").skip(1) {
        let (answer, text) = block.split_once("\n").expect(&rt, "an answer");
        let wanted = match answer.parse() {
            Ok(place) => Checked::Breaks(place),
            Err(_) => Checked::Run,
        };
        let history = history_of(&rt, rt.alloc(), text);
        let checked = check_history(rt.alloc(), history.capacity, &history.pairs);
        is(&rt, text, checked, wanted);
    }
}
