//! Tests of `flume_core` and `flume_script` that no script of `tools/scripts/core` can say: ends
//! dropped anywhere, messages that aren't numbers, texts of errors, and which texts are scripts.
#![tactic(auto)]

#[cfg(test)]
mod dropped_ends;
#[cfg(test)]
mod errors;
#[cfg(test)]
mod faults;
#[cfg(test)]
mod fixtures;
#[cfg(test)]
mod judge;
#[cfg(test)]
mod lists;
#[cfg(test)]
mod random_scripts;
#[cfg(test)]
mod script_reader;
#[cfg(test)]
mod script_rows;
#[cfg(test)]
mod scripts;
