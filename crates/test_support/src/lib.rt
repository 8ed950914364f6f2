//! What crates of tests share. A library may not abort, so what fails a test is in their fixtures.
#![tactic(auto)]

pub mod arms;
pub mod capacities;
pub mod clocks;
pub mod counting;
pub mod ends;
pub mod selections;
pub mod stoppable_clock;
pub mod watchdog;
pub mod work;
