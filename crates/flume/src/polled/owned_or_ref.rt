//! An end of a channel that is owned or borrowed.
ghost use Rattle.std.specs.Prelude.{◌≡◌, ◌⊎◌};
ghost use Rattle.flume.specs.OwnedEnds.{end_of};

use std::alloc::AllocError;

#[derive(Drop)]
pub(crate) enum OwnedOrRef<'a, E> {
    Owned(E),
    Ref(&'a E),
}

impl<E> OwnedOrRef<'_, E> {
    #[inline(always)]
    pub(crate) fn get(&self) -> &E
        ensures end { result.now ≡ end_of self.now }
    {
        match self {
            OwnedOrRef::Owned(end) => end,
            OwnedOrRef::Ref(end) => end,
        }
    }
}

impl<E: Clone> Clone for OwnedOrRef<'_, E> {
    ghost is_clone = { λ end copy.
        (end_of copy ≡ end_of end) ⊎ E.is_clone (end_of end) (end_of copy) };

    fn clone(&self) -> Result<Self, AllocError> {
        match self {
            OwnedOrRef::Owned(end) => Ok(OwnedOrRef::Owned(end.clone()?)),
            OwnedOrRef::Ref(end) => Ok(OwnedOrRef::Ref(end)),
        }
    }
}
