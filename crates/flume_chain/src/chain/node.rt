//! A node of a chain.
ghost use Rattle.std.specs.Prelude.{◌≡◌, Some, None, option_copied, IsSome};
ghost use Rattle.std.specs.Borrow.{Lends, sem};
ghost use Rattle.std.specs.Option.{option_map};
ghost use Rattle.flume_chain.specs.Links.{next_of, previous_of, element_of, node_with_value};
ghost use Rattle.flume_chain.specs.Links.{with_new_label};

use crate::labelled::LabelledValue;
use std::mem;
use std::mem::size_of;

/// `next` of a free one is the next free place, and its `previous` says nothing.
#[derive(Drop)]
pub(super) enum Node<L, E> {
    Free {
        previous: u32,
        next: u32,
    },
    Occupied {
        previous: u32,
        next: u32,
        label: L,
        value: E,
    },
}

const _: () = prove!(size_of::<Node<u32, u64>>() == 24);

impl<L, E> Node<L, E> {
    ghost use Rattle.flume_chain.specs.contracts.chain.node.Node.{the_row};

    #[inline(always)]
    pub(super) fn next(&self) -> u32
        ensures next { result ≡ next_of self.now }
    {
        match self {
            Node::Free { next, .. } => *next,
            Node::Occupied { next, .. } => *next,
        }
    }

    #[inline(always)]
    pub(super) fn previous(&self) -> u32
        ensures previous { result ≡ previous_of self.now }
    {
        match self {
            Node::Free { previous, .. } => *previous,
            Node::Occupied { previous, .. } => *previous,
        }
    }

    #[inline(always)]
    pub(super) fn set_next(&mut self, place: u32)
        ensures next { next_of self.new ≡ place }
        ensures previous { previous_of self.new ≡ previous_of self.old }
        ensures element { element_of self.new ≡ element_of self.old }
    {
        match self {
            Node::Free { next, .. } => *next = place,
            Node::Occupied { next, .. } => *next = place,
        }
    }

    #[inline(always)]
    pub(super) fn set_previous(&mut self, place: u32)
        ensures next { next_of self.new ≡ next_of self.old }
        ensures previous { previous_of self.new ≡ place }
        ensures element { element_of self.new ≡ element_of self.old }
    {
        match self {
            Node::Free { previous, .. } => *previous = place,
            Node::Occupied { previous, .. } => *previous = place,
        }
    }

    #[inline(always)]
    pub(super) fn value(&self) -> Option<&E>
        ensures value { option_copied result ≡ option_map (λ e. e.value) (element_of self.now) }
    {
        match self {
            Node::Free { .. } => None,
            Node::Occupied { value, .. } => Some(value),
        }
    }

    #[inline(always)]
    pub(super) fn label(&self) -> Option<&L>
        ensures label { option_copied result ≡ option_map (λ e. e.label) (element_of self.now) }
    {
        match self {
            Node::Free { .. } => None,
            Node::Occupied { label, .. } => Some(label),
        }
    }

    #[inline(always)]
    pub(super) fn value_mut(&mut self) -> &mut E
        requires occupied { IsSome (element_of self.old) }
        ensures* writes_back { sem 𝓛 (Lends (the_row L.row E.row) E.row self.entry result
            (node_with_value self.old)) }
        ensures value { option_map (λ e. e.value) (element_of self.old) ≡ Some result.now }
    {
        match self {
            Node::Occupied { value, .. } => value,
            Node::Free { .. } => unreachable!(),
        }
    }
}

impl<L: Drop, E: Drop> Node<L, E> {
    #[inline(always)]
    pub(super) fn set_label(&mut self, new: L)
        ensures next { next_of self.new ≡ next_of self.old }
        ensures previous { previous_of self.new ≡ previous_of self.old }
        ensures element { element_of self.new
            ≡ option_map (with_new_label new) (element_of self.old) }
    {
        if let Node::Occupied { label, .. } = self {
            *label = new;
        }
    }

    #[inline(always)]
    pub(super) fn take(&mut self) -> Option<LabelledValue<L, E>>
        ensures element { result ≡ element_of self.old }
        ensures taken { element_of self.new ≡ None }
        ensures next { next_of self.new ≡ next_of self.old }
        ensures previous { previous_of self.new ≡ previous_of self.old }
    {
        let free = Node::Free {
            previous: self.previous(),
            next: self.next(),
        };
        match mem::replace(self, free) {
            Node::Free { .. } => None,
            Node::Occupied { label, value, .. } => Some(LabelledValue { label, value }),
        }
    }

    #[inline(always)]
    pub(super) fn discard(&mut self)
        ensures discarded { element_of self.new ≡ None }
        ensures next { next_of self.new ≡ next_of self.old }
        ensures previous { previous_of self.new ≡ previous_of self.old }
    {
        *self = Node::Free {
            previous: self.previous(),
            next: self.next(),
        };
    }

    #[inline(always)]
    pub(super) fn take_element(&mut self) -> LabelledValue<L, E>
        requires occupied { IsSome (element_of self.old) }
        ensures element { element_of self.old ≡ Some result }
        ensures taken { element_of self.new ≡ None }
        ensures next { next_of self.new ≡ next_of self.old }
        ensures previous { previous_of self.new ≡ previous_of self.old }
    {
        match self.take() {
            Some(element) => element,
            None => unreachable!(),
        }
    }
}

#[inline(always)]
pub(super) fn occupied<L, E>(element: LabelledValue<L, E>, previous: u32, next: u32) -> Node<L, E>
    ensures next { next_of result ≡ next }
    ensures previous { previous_of result ≡ previous }
    ensures element { element_of result ≡ Some element }
{
    let LabelledValue { label, value } = element;
    Node::Occupied {
        previous,
        next,
        label,
        value,
    }
}
