//! A party in another thread.
use crate::shared::two_add;
use std::process::Abort;

#[test]
fn what_two_threads_add_is_two_numbers(host: HostRuntime) {
    assert!(host; two_add(&host, 7, 8) == Some(2));
}
