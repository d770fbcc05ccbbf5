//! What a type is, and what stands behind or within it.

ghost use Rattle.std.specs.Prelude.{◌≡◌};
ghost use Rattle.std.specs.Option.{option_copied};
ghost use Rattle.sil_types_declarations.specs.TypeDefinitions.Rules as rules;
ghost use Rattle.sil_types.specs.Typing.Shapes as shapes;

use crate::table::TypeTable;
use sil_ast::{Decl, TypeName};

/// Whether it is an object's type: neither an address nor weak or unowned storage.
pub fn is_object(ty: &TypeName) -> bool
    ensures { result ≡ shapes.is_object ty.now }
{
    match ty {
        TypeName::Weak(_) => false,
        TypeName::Unowned(_) => false,
        TypeName::Address(_) => false,
        _ => true,
    }
}

/// Whether it is an object's type that holds a reference.
pub fn is_nontrivial(table: &TypeTable, ty: &TypeName) -> bool
    ensures { result ≡ shapes.is_nontrivial table.now ty.now }
{
    is_object(ty) && !table.is_trivial(ty)
}

/// Whether it is an object's type that holds no reference.
pub fn is_trivial_object(table: &TypeTable, ty: &TypeName) -> bool
    ensures { result ≡ shapes.is_trivial_object table.now ty.now }
{
    is_object(ty) && table.is_trivial(ty)
}

/// Whether it is weak or unowned storage.
pub fn is_storage(ty: &TypeName) -> bool
    ensures { result ≡ shapes.is_storage ty.now }
{
    match ty {
        TypeName::Weak(_) => true,
        TypeName::Unowned(_) => true,
        _ => false,
    }
}

/// Whether it is a builtin integer.
pub fn is_integer(ty: &TypeName) -> bool
    ensures { result ≡ shapes.is_integer ty.now }
{
    match ty {
        TypeName::Int(_) => true,
        _ => false,
    }
}

/// Whether it is `Builtin.Int1`.
pub fn is_bit(ty: &TypeName) -> bool
    ensures { result ≡ shapes.is_bit ty.now }
{
    match ty {
        TypeName::Int(width) => *width == 1,
        _ => false,
    }
}

/// Whether it is a class.
pub fn is_class_type(table: &TypeTable, ty: &TypeName) -> bool
    ensures { result ≡ rules.is_class_type table.now ty.now }
{
    match ty {
        TypeName::Named(name) => match table.decl(name) {
            Some(Decl::Class { .. }) => true,
            _ => false,
        },
        _ => false,
    }
}

/// Whether it is an address.
pub fn is_address(ty: &TypeName) -> bool
    ensures { result ≡ shapes.is_address ty.now }
{
    match ty {
        TypeName::Address(_) => true,
        _ => false,
    }
}

/// The type at an address.
pub fn target(ty: &TypeName) -> Option<&TypeName>
    ensures { option_copied result ≡ shapes.target ty.now }
{
    match ty {
        TypeName::Address(inner) => Some(inner.get()),
        _ => None,
    }
}

/// The object's type at an address.
pub fn object_at(ty: &TypeName) -> Option<&TypeName>
    ensures { option_copied result ≡ shapes.object_at ty.now }
{
    match ty {
        TypeName::Address(inner) => {
            let inner = inner.get();
            if is_object(inner) { Some(inner) } else { None }
        }
        _ => None,
    }
}

/// The type of what weak storage at an address gives.
pub fn weak_at(ty: &TypeName) -> Option<&TypeName>
    ensures { option_copied result ≡ shapes.weak_at ty.now }
{
    match target(ty) {
        Some(TypeName::Weak(inner)) => Some(inner.get()),
        _ => None,
    }
}

/// The type of what unowned storage at an address gives.
pub fn unowned_at(ty: &TypeName) -> Option<&TypeName>
    ensures { option_copied result ≡ shapes.unowned_at ty.now }
{
    match target(ty) {
        Some(TypeName::Unowned(inner)) => Some(inner.get()),
        _ => None,
    }
}

/// The elements of a tuple.
pub fn elements(ty: &TypeName) -> Option<&[TypeName]>
    ensures { option_copied result ≡ shapes.elements ty.now }
{
    match ty {
        TypeName::Tuple(parts) => Some(parts.get().as_slice()),
        _ => None,
    }
}

/// The element of a tuple with a number, from 0.
pub fn element_of(number: Option<i64>, ty: &TypeName) -> Option<&TypeName>
    ensures { option_copied result ≡ shapes.element_of number ty.now }
{
    match (elements(ty), number) {
        (Some(parts), Some(number)) => match usize::try_from(number) {
            Ok(index) => parts.get(index),
            Err(_) => None,
        },
        _ => None,
    }
}

/// How many cases a type has that is an enum.
pub fn case_count(table: &TypeTable, ty: &TypeName) -> Option<usize>
    ensures { result ≡ shapes.case_count table.now ty.now }
{
    match ty {
        TypeName::Named(name) => match table.decl(name) {
            Some(Decl::Enum { cases, .. }) => Some(cases.len()),
            _ => None,
        },
        TypeName::Optional(_) => Some(2),
        _ => None,
    }
}

/// Whether it is an enum.
pub fn is_enum(table: &TypeTable, ty: &TypeName) -> bool
    ensures { result ≡ shapes.is_enum table.now ty.now }
{
    case_count(table, ty).is_some()
}
