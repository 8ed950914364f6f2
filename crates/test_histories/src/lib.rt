//! Tests of histories and audits: random channels, a second judge, threads, wrong receipts, and
//! memory that is refused to these and to lists of steps.
#![tactic(auto)]

#[cfg(test)]
mod books;
#[cfg(test)]
mod compared;
#[cfg(test)]
mod fixtures;
#[cfg(test)]
mod leaks;
#[cfg(test)]
mod memory;
#[cfg(test)]
mod random_histories;
#[cfg(test)]
mod random_replies;
#[cfg(test)]
mod random_steps;
#[cfg(test)]
mod refused_lists;
#[cfg(test)]
mod rows;
#[cfg(test)]
mod seated;
#[cfg(test)]
mod slow_judge;
#[cfg(test)]
mod slow_judge_ends;
#[cfg(test)]
mod threads;
