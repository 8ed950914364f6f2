//! A list from which each element can be taken out without a search, wherever it is. A *place* is a
//! number that names an element while it is in the list, of at most 4,294,967,295 elements.
//! ```
//! let mut chain = Chain::new(alloc);
//! chain.push_back(LabelledValue { label: 7, value: 'a' }).ok(); // Some(0)
//! chain.push_back(LabelledValue { label: 8, value: 'b' }).ok(); // Some(1)
//! chain.get(0).copied();             // Some('a')
//! chain.label(1).copied();           // Some(8)
//! chain.next(0);                     // Some(1)
//! ```
#![tactic(auto)]

pub mod chain;
pub mod labelled;
