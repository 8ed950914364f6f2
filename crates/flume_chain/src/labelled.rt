//! A value of a chain with a label.

/// A value with a label, which the chain's caller chooses; both are in the node of the chain.
#[derive(Drop)]
pub struct LabelledValue<L, E> {
    pub label: L,
    pub value: E,
}
