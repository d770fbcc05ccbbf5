//! Whether what a view tells is `Builtin.Int1`, or the address of a location that holds a type.

ghost use Rattle.std.specs.Prelude.{◌≡◌};
ghost use Rattle.type_check_rows.specs.inner.Views.{view_told};
ghost use Rattle.sil_ast.specs.declared.type_name.TypeName.TheVariants as type;
ghost use Rattle.sil_types.specs.Typing.Builtins.{bit};
ghost use Rattle.sil_types.specs.Typing.Same.{is_same_type};
ghost use Rattle.sil_types.specs.sil_types_declarations.TypeDefinitions.Mentions.{direct_type};

use sil_ast::{Given, TypeName};
use sil_types::shapes::is_bit;
use sil_types::{is_unowned_of, is_weak_of, only_direct_type, same_type};
use type_check_rows::TypeView;

fn is_bit_type(ty: &TypeName) -> bool
    ensures { result ≡ is_same_type bit ty.now }
{
    is_bit(ty)
}

fn is_bit_given(results: &[Given]) -> bool
    ensures { result ≡ is_same_type bit (direct_type results.now) }
{
    match only_direct_type(results) {
        Some(ty) => is_bit_type(ty),
        None => false,
    }
}

/// Whether it tells `Builtin.Int1`.
pub(crate) fn is_bit_view(view: &TypeView<'_>) -> bool
    ensures { result ≡ is_same_type bit (view_told view.now) }
{
    match view {
        TypeView::Written(ty) => is_bit_type(ty),
        TypeView::AddressOf(_) => false,
        TypeView::WeakAddress(_) => false,
        TypeView::UnownedAddress(_) => false,
        TypeView::TupleOf(_) => false,
        TypeView::GivenBy(results) => is_bit_given(results),
    }
}

fn is_address(target: &TypeName, ty: &TypeName) -> bool
    ensures { result ≡ is_same_type (type.Address target.now) ty.now }
{
    match ty {
        TypeName::Address(inner) => same_type(target, inner.get()),
        _ => false,
    }
}

fn is_address_given(target: &TypeName, results: &[Given]) -> bool
    ensures { result ≡ is_same_type (type.Address target.now) (direct_type results.now) }
{
    match only_direct_type(results) {
        Some(ty) => is_address(target, ty),
        None => false,
    }
}

/// Whether it tells the address of a location that holds this type.
pub(crate) fn is_address_view(target: &TypeName, view: &TypeView<'_>) -> bool
    ensures { result ≡ is_same_type (type.Address target.now) (view_told view.now) }
{
    match view {
        TypeView::Written(ty) => is_address(target, ty),
        TypeView::AddressOf(own) => same_type(target, own),
        TypeView::WeakAddress(inner) => is_weak_of(target, inner),
        TypeView::UnownedAddress(inner) => is_unowned_of(target, inner),
        TypeView::TupleOf(_) => false,
        TypeView::GivenBy(results) => is_address_given(target, results),
    }
}
