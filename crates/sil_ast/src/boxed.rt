//! A box that contracts see as the value in it, with no pointer.

ghost use Rattle.std.specs.Borrow.{Lends, sem};
ghost use Rattle.std.specs.Prelude.{◌≡◌, IfOk};

use crate::exhausted::Exhausted;
use crate::try_clone::TryClone;
use std::alloc::Global;
use std::marker::Model;

/// A value in memory of its own, as a type needs it that holds itself. To a contract it is the value.
#[derive(Drop)]
pub struct Boxed<T> {
    inner: Box<T>,
}

impl<T> Model for Boxed<T> {
    ghost Value = { T };

    ghost coded = { T.code };

    ghost view = { λ boxed. boxed.inner.value };
}

impl<T: Drop> Boxed<T> {
    pub fn new(alloc: Global, value: T) -> Result<Boxed<T>, Exhausted>
        ensures { IfOk result (λ boxed. boxed ≡ value) }
    {
        Ok(Boxed {
            inner: Box::new(alloc, value)?,
        })
    }
}

impl<T> Boxed<T> {
    ghost use Rattle.sil_ast.specs.contracts.boxed.Boxed.{the_row};

    pub fn get(&self) -> &T
        ensures { result.now ≡ self.now }
    {
        &self.inner
    }

    /// The value, for writing.
    pub fn get_mut(&mut self) -> &mut T
        ensures* writes_back { sem 𝓛 (Lends (the_row T.row) T.row self.entry result (λ w. w)) }
        ensures value { result.now ≡ self.old }
    {
        &mut self.inner
    }

    /// The value, out of its box.
    pub fn into_inner(self) -> T
        ensures { result ≡ self }
    {
        let Boxed { inner } = self;
        Box::into_inner(inner)
    }
}

impl<T: TryClone + Drop> TryClone for Boxed<T> {
    fn try_clone(&self, alloc: Global) -> Result<Boxed<T>, Exhausted> {
        Boxed::new(alloc, self.get().try_clone(alloc)?)
    }
}
