//! Copies that can fail for want of memory. A copy that is made equals its original.

ghost use Rattle.std.specs.Prelude.{◌≡◌, IfOk};

use crate::exhausted::Exhausted;
use std::alloc::Global;

/// A value of which an equal one can be made.
pub trait TryClone {
    /// A copy in memory of its own.
    fn try_clone(&self, alloc: Global) -> Result<Self, Exhausted>
    where
        Self: Sized,
        ensures { IfOk result (λ copy. copy ≡ self.now) };
}

impl<T: TryClone> TryClone for Option<T> {
    fn try_clone(&self, alloc: Global) -> Result<Option<T>, Exhausted> {
        match self {
            None => Ok(None),
            Some(value) => Ok(Some(value.try_clone(alloc)?)),
        }
    }
}

/// A copy of each of four values.
pub(crate) fn copy_four<
    A: TryClone + Drop,
    B: TryClone + Drop,
    C: TryClone + Drop,
    D: TryClone + Drop,
>(a: &A, b: &B, c: &C, d: &D, alloc: Global) -> Result<(A, B, C, D), Exhausted>
    ensures { IfOk result (λ copies. copies ≡ (a.now, b.now, c.now, d.now)) }
{
    Ok((
        a.try_clone(alloc)?,
        b.try_clone(alloc)?,
        c.try_clone(alloc)?,
        d.try_clone(alloc)?,
    ))
}
