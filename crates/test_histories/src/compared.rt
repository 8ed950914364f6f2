//! Histories and lists of receipts, and the least number at which they disagree.
use crate::fixtures::unwrap;
use flume_audit::differs::differs;
use flume_audit::receipt::Receipt;
use flume_model::step::{Reply, Step};
use std::alloc::Global;
use std::process::Abort;

// The length of the history `a`, `b`, `c`, lists of receipts as `number=entry`, and that number.
const ROWS: &str = "
0: -> none
0: 0=d -> 0
1: 0=a -> none
1: -> 0
1: 0=d -> 0
1: 0=a, 0=a -> 0
1: 0=a 0=a -> 0
3: 0=a 2=c, 1=b -> none
3: 1=b, 0=a 2=c -> none
3: 0=a 2=c, -> 1
3: 0=a, 1=b -> 2
3: 0=a 1=b 2=d -> 2
3: 0=a 1=e 2=c -> 1
3: 0=a 2=b 1=c -> 1
3: 0=b 2=c, 1=a -> 0
3: 1=b 2=c 0=a -> 0
3: 0=a 1=b 2=c 9=c -> 3
3: 0=a 1=b 2=c, 3=a -> 3
3: 0=a 2=c 7=c -> 1
";

fn entry(letter: &str) -> (Step<u64>, Reply<u64>) {
    let sent = Reply::Sent { filled: None };
    match letter {
        "a" => (Step::TrySend(1), sent),
        "b" => (Step::TrySend(2), sent),
        "c" => (Step::TryRecv, Reply::Got(1)),
        "d" => (Step::TryRecv, Reply::Empty),
        _ => (Step::TrySend(3), sent),
    }
}

fn receipts_of(rt: &impl Abort, alloc: Global, text: &str) -> Vec<Receipt<u64>> {
    let mut list = Vec::new(alloc);
    for receipt in text.split_whitespace() {
        let (number, letter) = receipt.split_once("=").expect(rt, "a receipt");
        let (step, reply) = entry(letter);
        let number = number.parse().expect(rt, "a number");
        unwrap(
            rt,
            list.push(Receipt {
                number,
                step,
                reply,
            }),
        );
    }
    list
}

fn row_is_right(rt: &impl Abort, alloc: Global, row: &str) -> bool {
    let (length, row) = row.split_once(":").expect(rt, "a length");
    let (text, wanted) = row.split_once(" -> ").expect(rt, "an arrow");
    let length = length.parse().expect(rt, "a length");
    let mut history = Vec::new(alloc);
    for &letter in ["a", "b", "c"].iter().take(length) {
        unwrap(rt, history.push(entry(letter)));
    }
    let lists = lists_of(rt, alloc, text);
    differs(&history, &lists) == wanted.parse().ok()
}

fn lists_of(rt: &impl Abort, alloc: Global, text: &str) -> Vec<Vec<Receipt<u64>>> {
    let mut lists = Vec::new(alloc);
    for list in text.split(",") {
        unwrap(rt, lists.push(receipts_of(rt, alloc, list)));
    }
    lists
}

#[test]
fn the_least_number_of_a_disagreement_is_answered(rt: HostRuntime) {
    for row in ROWS.trim().split("\n") {
        assert!(rt; row_is_right(&rt, rt.alloc(), row), "{row}");
    }
}
