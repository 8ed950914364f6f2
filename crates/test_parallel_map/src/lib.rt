//! Tests of `parallel_map`: what its clauses leave open.
#![tactic(auto)]

#[cfg(test)]
mod errors;
#[cfg(test)]
mod results;
#[cfg(test)]
mod threads;
