//! Types put together from what a module or its table holds, and what a row gives.

ghost use Rattle.std.specs.Prelude.{◌≡◌, length, option_map, slice_get};
ghost use Rattle.type_check_rows.specs.inner.Views.{made_told, view_told};

use sil_ast::{Field, Given, Operand, TypeName};

/// A type, put together from what a module or its table holds.
#[derive(Clone, Copy)]
pub enum TypeView<'a> {
    /// The type itself.
    Written(&'a TypeName),
    /// `*T`
    AddressOf(&'a TypeName),
    /// `*@sil_weak T`
    WeakAddress(&'a TypeName),
    /// `*@sil_unowned T`
    UnownedAddress(&'a TypeName),
    /// The tuple of the types that are written at these operands.
    TupleOf(&'a [Operand]),
    /// What a signature with these results gives.
    GivenBy(&'a [Given]),
}

/// The types of the results that a row gives.
#[derive(Clone, Copy)]
pub enum Made<'a> {
    Nothing,
    One(TypeView<'a>),
    /// One result for each field, of its type.
    Fields(&'a [Field]),
    /// One result for each type.
    Elements(&'a [TypeName]),
}

impl<'a> Made<'a> {
    /// How many results there are.
    pub fn len(&self) -> usize
        ensures { result ≡ length (made_told self.now) }
    {
        match self {
            Made::Nothing => 0,
            Made::One(_) => 1,
            Made::Fields(fields) => fields.len(),
            Made::Elements(types) => types.len(),
        }
    }

    /// The type of the `k`-th result, from 0.
    pub fn get(&self, k: usize) -> Option<TypeView<'a>>
        ensures { option_map view_told result ≡ slice_get (made_told self.now) k }
    {
        match self {
            Made::Nothing => None,
            Made::One(view) => { if k == 0 { Some(*view) } else { None } }
            Made::Fields(fields) => match fields.get(k) {
                Some(field) => Some(TypeView::Written(&field.ty)),
                None => None,
            },
            Made::Elements(types) => match types.get(k) {
                Some(ty) => Some(TypeView::Written(ty)),
                None => None,
            },
        }
    }
}
