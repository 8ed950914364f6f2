//! The configurations on the way of a search.

use crate::choice::Choice;
use crate::configuration::Configuration;
use std::alloc::Allocator;

/// A configuration that a search has entered, and the choices that weren't tried there.
#[derive(Drop)]
pub struct Frame<A: Allocator> {
    pub configuration: Configuration<A>,
    pub place: usize,
    /// The last is to be tried first.
    pub choices: Vec<Choice, A>,
    /// How many choices led here.
    pub depth: usize,
}

/// The next configuration of a search.
#[derive(Drop)]
pub enum Next<A: Allocator> {
    /// By this choice, at this place.
    Leads(Choice, Configuration<A>, usize),
    Nowhere,
    NoMemory,
}
