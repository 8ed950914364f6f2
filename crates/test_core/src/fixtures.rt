//! What can't be had aborts a test here: a `?` in a test costs the prover a second.
use std::fmt::Debug;
use std::process::Abort;

pub(crate) fn is<T: Debug + PartialEq + Drop>(rt: &impl Abort, answer: T, wanted: T) {
    assert_eq!(rt; answer, wanted);
}

pub(crate) fn unwrap<T, E: Debug + Drop>(rt: &impl Abort, answer: Result<T, E>) -> T {
    answer.expect(rt, "there is memory")
}

pub(crate) fn holds(rt: &impl Abort, (title, fault): (&str, &str), truth: bool) {
    assert!(rt; truth, "{title}: {fault}");
}
