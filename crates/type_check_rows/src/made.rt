//! What a row gives, from what it found.

ghost use Rattle.std.specs.Prelude.{◌≡◌, option_and_then, option_map};
ghost use Rattle.std.specs.Option.{option_copied};
ghost use Rattle.sil_types.specs.sil_types_declarations.TypeDefinitions.Mentions.{given_type};
ghost use Rattle.sil_types.specs.Typing.RowTypes as rows;
ghost use Rattle.sil_types.specs.Typing.RowTypes.{address_of, address_of_field};
ghost use Rattle.sil_types.specs.Typing.Shapes as shapes;
ghost use Rattle.sil_types.specs.Typing.Shapes.{field_type};
ghost use Rattle.type_check_rows.specs.inner.Views.{made_told, view_told};

use crate::view::{Made, TypeView};
use sil_ast::{Field, Inst, Storage, TypeName};
use sil_types::TypeTable;
use sil_types::members::fields_of_struct;
use sil_types::shapes::elements;

/// A result of this type.
pub(crate) fn gives(ty: Option<&TypeName>) -> Option<Made<'_>>
    ensures { option_map made_told result ≡ rows.gives (option_copied ty.entry) }
{
    match ty {
        Some(ty) => Some(Made::One(TypeView::Written(ty))),
        None => None,
    }
}

/// The address of a location that holds this type.
pub(crate) fn gives_address(ty: Option<&TypeName>) -> Option<Made<'_>>
    ensures { option_map made_told result ≡ rows.gives (option_map address_of (option_copied ty.entry)) }
{
    match ty {
        Some(ty) => Some(Made::One(TypeView::AddressOf(ty))),
        None => None,
    }
}

/// No result, where there is this type.
pub(crate) fn takes(ty: Option<&TypeName>) -> Option<Made<'_>>
    ensures { option_map made_told result ≡ rows.takes (option_copied ty.entry) }
{
    match ty {
        Some(_) => Some(Made::Nothing),
        None => None,
    }
}

pub(crate) fn gives_field(field: Option<&Field>) -> Option<Made<'_>>
    ensures { option_map made_told result ≡ rows.gives (option_map field_type (option_copied field.entry)) }
{
    match field {
        Some(field) => Some(Made::One(TypeView::Written(&field.ty))),
        None => None,
    }
}

/// The address of a struct's field.
pub(crate) fn gives_address_of_field(field: Option<&Field>) -> Option<Made<'_>>
    ensures { option_map made_told result ≡ rows.gives (option_map address_of_field (option_copied field.entry)) }
{
    match field {
        Some(field) => Some(Made::One(TypeView::AddressOf(&field.ty))),
        None => None,
    }
}

fn field_address(field: &Field) -> TypeView<'_>
    ensures { view_told result ≡ shapes.field_address field.now }
{
    match field.storage {
        Storage::Strong => TypeView::AddressOf(&field.ty),
        Storage::Weak => TypeView::WeakAddress(&field.ty),
        Storage::Unowned => TypeView::UnownedAddress(&field.ty),
    }
}

/// The address of an object's field.
pub(crate) fn gives_field_address(field: Option<&Field>) -> Option<Made<'_>>
    ensures { option_map made_told result ≡ rows.gives (option_map shapes.field_address (option_copied field.entry)) }
{
    match field {
        Some(field) => Some(Made::One(field_address(field))),
        None => None,
    }
}

/// A result for each field of a struct.
pub(crate) fn all_fields<'a>(table: &'a TypeTable, ty: Option<&'a TypeName>) -> Option<Made<'a>>
    ensures { option_map made_told result ≡ option_and_then (rows.all_fields table.now) (option_copied ty.entry) }
{
    match ty {
        Some(ty) => match fields_of_struct(table, ty) {
            Some(fields) => Some(Made::Fields(fields)),
            None => None,
        },
        None => None,
    }
}

/// A result for each element of a tuple.
pub(crate) fn all_elements(ty: Option<&TypeName>) -> Option<Made<'_>>
    ensures { option_map made_told result ≡ option_and_then shapes.elements (option_copied ty.entry) }
{
    match ty {
        Some(ty) => match elements(ty) {
            Some(types) => Some(Made::Elements(types)),
            None => None,
        },
        None => None,
    }
}

/// What the instruction's signature gives.
pub(crate) fn gives_by_signature(inst: &Inst) -> Option<Made<'_>>
    ensures { option_map made_told result ≡ rows.gives (option_map given_type inst.now.signature) }
{
    match &inst.signature {
        Some(signature) => {
            let results = signature.get().results.as_slice();
            Some(Made::One(TypeView::GivenBy(results)))
        }
        None => None,
    }
}
