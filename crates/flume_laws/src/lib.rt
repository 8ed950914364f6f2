//! The laws of what parties did, together: what they sent is what they got, in order. And of one
//! party alone: what it got was offered.
#![tactic(auto)]

mod laws;

pub use laws::{
    each_pair_keeps_its_order, every_sum_is_kept, requests_are_told_apart,
    what_comes_back_is_what_was_offered, what_is_left_was_sent_last, what_was_got_was_offered,
    what_was_sent_before_comes_before, what_was_sent_is_what_was_got,
};
