//! The one refusal of every call that takes memory.

ghost use Rattle.std.specs.Prelude.{⊤};

use std::alloc::{AllocError, AllocFailed};

/// There was no memory left.
#[derive(Clone, Copy, Debug, PartialEq, Eq)]
pub struct Exhausted;

impl From<AllocError> for Exhausted {
    ghost from_gives = { λ _ _. ⊤ };

    fn from(_error: AllocError) -> Exhausted {
        Exhausted
    }
}

impl<T: Drop> From<AllocFailed<T>> for Exhausted {
    ghost from_gives = { λ _ _. ⊤ };

    fn from(_failed: AllocFailed<T>) -> Exhausted {
        Exhausted
    }
}
