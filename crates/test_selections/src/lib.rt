//! Tests of selectors, and of the parker that a selector sleeps on. Most of what scripts can say is
//! in `tools/scripts/ends`, and with threads in `tools/scripts/threads`.
#![tactic(auto)]

#[cfg(test)]
mod clocks;
#[cfg(test)]
mod fixtures;
#[cfg(test)]
mod lists;
#[cfg(test)]
mod mappers;
#[cfg(test)]
mod meeting;
#[cfg(test)]
mod parkers;
#[cfg(test)]
mod types;
