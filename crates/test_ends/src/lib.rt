//! Tests of the ends of `flume`: builders, lists, why an iterator ended, messages that hold an end,
//! which types go into a thread, what executors poll, and threads with memory refused at random.
//! Most of what ends do to channels of numbers is text: `tools/scripts`.
#![tactic(auto)]

#[cfg(test)]
mod asked;
#[cfg(test)]
mod builder;
#[cfg(test)]
mod fixtures;
#[cfg(test)]
mod forward;
#[cfg(test)]
mod iterators;
#[cfg(test)]
mod lists;
#[cfg(test)]
mod many;
#[cfg(test)]
mod nested;
#[cfg(test)]
mod numbers;
#[cfg(test)]
mod order;
#[cfg(test)]
mod polls;
#[cfg(test)]
mod runtime;
#[cfg(test)]
mod soak;
#[cfg(test)]
mod types;
#[cfg(test)]
mod woken_for_nothing;
