//! Whether a type is the one that a view tells, without building it.

ghost use Rattle.std.specs.Prelude.{◌≡◌};
ghost use Rattle.sil_ast.specs.declared.type_name.TypeName.TheVariants as type;
ghost use Rattle.sil_types.specs.sil_types_declarations.TypeDefinitions.Mentions.{direct_type, direct_types};
ghost use Rattle.sil_types.specs.Typing.RowTypes.{all_written};
ghost use Rattle.sil_types.specs.Typing.Same.{are_same_types, is_same_type};
ghost use Rattle.type_check_rows.specs.inner.Views.{view_told};

use crate::view::TypeView;
use crate::written_types::{next_written, none_written};
use argument_conventions::next_direct;
use sil_ast::{Given, Operand, TypeName};
use sil_types::{is_unowned_of, is_weak_of, only_direct_type, same_type};

impl TypeView<'_> {
    /// Whether a type is the one that this is put together to.
    pub fn is(&self, ty: &TypeName) -> bool
        ensures { result ≡ is_same_type ty.now (view_told self.now) }
    {
        match self {
            TypeView::Written(own) => same_type(ty, own),
            TypeView::AddressOf(own) => is_address(own, ty),
            TypeView::WeakAddress(own) => is_weak_address(own, ty),
            TypeView::UnownedAddress(own) => is_unowned_address(own, ty),
            TypeView::TupleOf(operands) => is_tuple_of(operands, ty),
            TypeView::GivenBy(results) => is_given_by(results, ty),
        }
    }
}

fn is_address(own: &TypeName, ty: &TypeName) -> bool
    ensures { result ≡ is_same_type ty.now (type.Address own.now) }
{
    match ty {
        TypeName::Address(inner) => same_type(inner.get(), own),
        _ => false,
    }
}

fn is_weak_address(own: &TypeName, ty: &TypeName) -> bool
    ensures { result ≡ is_same_type ty.now (type.Address (type.Weak own.now)) }
{
    match ty {
        TypeName::Address(inner) => is_weak_of(inner.get(), own),
        _ => false,
    }
}

fn is_unowned_address(own: &TypeName, ty: &TypeName) -> bool
    ensures { result ≡ is_same_type ty.now (type.Address (type.Unowned own.now)) }
{
    match ty {
        TypeName::Address(inner) => is_unowned_of(inner.get(), own),
        _ => false,
    }
}

/// Whether these are the types that are written at the operands.
fn are_written(parts: &[TypeName], operands: &[Operand]) -> bool
    ensures { result ≡ are_same_types parts.now (all_written operands.now) }
{
    let mut rest = operands;
    for part in parts {
        let Some(next) = next_written(rest) else {
            return false;
        };
        if !same_type(part, next.ty) {
            return false;
        }
        rest = next.rest;
    }
    none_written(rest)
}

fn is_tuple_of(operands: &[Operand], ty: &TypeName) -> bool
    ensures { result ≡ is_same_type ty.now (type.Tuple (all_written operands.now)) }
{
    match ty {
        TypeName::Tuple(parts) => are_written(parts.get().as_slice(), operands),
        _ => false,
    }
}

/// Whether these are the types of the direct results.
fn are_given(parts: &[TypeName], results: &[Given]) -> bool
    ensures { result ≡ are_same_types parts.now (direct_types results.now) }
{
    let mut rest = results;
    for part in parts {
        let Some(next) = next_direct(rest) else {
            return false;
        };
        if !same_type(part, &next.given.ty) {
            return false;
        }
        rest = next.rest;
    }
    next_direct(rest).is_none()
}

fn is_given_by(results: &[Given], ty: &TypeName) -> bool
    ensures { result ≡ is_same_type ty.now (direct_type results.now) }
{
    match only_direct_type(results) {
        Some(own) => same_type(ty, own),
        None => is_tuple_given(results, ty),
    }
}

fn is_tuple_given(results: &[Given], ty: &TypeName) -> bool
    ensures { result ≡ is_same_type ty.now (type.Tuple (direct_types results.now)) }
{
    match ty {
        TypeName::Tuple(parts) => are_given(parts.get().as_slice(), results),
        _ => false,
    }
}
