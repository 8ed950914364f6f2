//! Tests of the judge: explanations and recordings that were worked by hand, right ones and wrong
//! ones; texts of recordings; and what recorders recorded of each call.
#![tactic(auto)]

#[cfg(test)]
mod explained_futures;
#[cfg(test)]
mod explanations;
#[cfg(test)]
mod fixtures;
#[cfg(test)]
mod recorder_texts;
#[cfg(test)]
mod recordings;
#[cfg(test)]
mod refused_recorders;
#[cfg(test)]
mod searches;
