//! Types kept where they pass a test, and what stands behind them.

ghost use Rattle.std.specs.Prelude.{◌≡◌, ◌||◌, option_and_then};
ghost use Rattle.std.specs.Option.{option_copied};
ghost use Rattle.sil_types.specs.sil_types_declarations.TypeDefinitions.Rules as rules;
ghost use Rattle.sil_types.specs.Typing.RowTypes as rows;
ghost use Rattle.sil_types.specs.Typing.Shapes as shapes;
ghost use Rattle.sil_types.specs.Typing.Shapes.{where_it};

use sil_ast::TypeName;
use sil_types::TypeTable;
use sil_types::shapes::{
    element_of, is_bit, is_class_type, is_enum, is_integer, is_nontrivial, is_object, is_storage,
    object_at, target, unowned_at, weak_at,
};

pub(crate) fn where_integer(ty: Option<&TypeName>) -> Option<&TypeName>
    ensures { option_copied result ≡ where_it shapes.is_integer (option_copied ty.entry) }
{
    ty.filter(|ty| is_integer(ty))
}

pub(crate) fn where_bit(ty: Option<&TypeName>) -> Option<&TypeName>
    ensures { option_copied result ≡ where_it shapes.is_bit (option_copied ty.entry) }
{
    ty.filter(|ty| is_bit(ty))
}

pub(crate) fn where_object(ty: Option<&TypeName>) -> Option<&TypeName>
    ensures { option_copied result ≡ where_it shapes.is_object (option_copied ty.entry) }
{
    ty.filter(|ty| is_object(ty))
}

pub(crate) fn where_class<'a>(table: &TypeTable, ty: Option<&'a TypeName>) -> Option<&'a TypeName>
    ensures { option_copied result ≡ where_it (rules.is_class_type table.now) (option_copied ty.entry) }
{
    ty.filter(|ty| is_class_type(table, ty))
}

pub(crate) fn where_enum<'a>(table: &TypeTable, ty: Option<&'a TypeName>) -> Option<&'a TypeName>
    ensures { option_copied result ≡ where_it (shapes.is_enum table.now) (option_copied ty.entry) }
{
    ty.filter(|ty| is_enum(table, ty))
}

pub(crate) fn where_nontrivial<'a>(
    table: &TypeTable,
    ty: Option<&'a TypeName>,
) -> Option<&'a TypeName>
    ensures { option_copied result ≡ where_it (shapes.is_nontrivial table.now) (option_copied ty.entry) }
{
    ty.filter(|ty| is_nontrivial(table, ty))
}

/// An object's type that holds a reference and isn't a class.
pub(crate) fn where_counted<'a>(table: &TypeTable, ty: Option<&'a TypeName>) -> Option<&'a TypeName>
    ensures { option_copied result ≡ where_it (rows.is_counted_value table.now) (option_copied ty.entry) }
{
    ty.filter(|ty| is_nontrivial(table, ty) && !is_class_type(table, ty))
}

/// The type of what has something to destroy: a reference, or weak or unowned storage.
pub(crate) fn where_destroyed<'a>(
    table: &TypeTable,
    ty: Option<&'a TypeName>,
) -> Option<&'a TypeName>
    ensures { option_copied result ≡ where_it (λ t. shapes.is_nontrivial table.now t || shapes.is_storage t) (option_copied ty.entry) }
{
    ty.filter(|ty| is_nontrivial(table, ty) || is_storage(ty))
}

/// The type, where it is a class from which the class of the value inherits.
pub(crate) fn where_base<'a>(
    table: &TypeTable,
    value: Option<&TypeName>,
    ty: Option<&'a TypeName>,
) -> Option<&'a TypeName>
    ensures { option_copied result ≡ where_it (rows.is_base table.now (option_copied value.entry)) (option_copied ty.entry) }
{
    match ty {
        Some(ty) => {
            if is_base(table, value, ty) {
                Some(ty)
            } else {
                None
            }
        }
        None => None,
    }
}

/// Whether it is a class from which the class of the value inherits.
fn is_base(table: &TypeTable, value: Option<&TypeName>, ty: &TypeName) -> bool
    ensures { result ≡ rows.is_base table.now (option_copied value.entry) ty.now }
{
    match value {
        Some(value) => is_derived(table, value, ty),
        None => false,
    }
}

/// Whether both types are classes, of which the first inherits from the second.
fn is_derived(table: &TypeTable, ty: &TypeName, other: &TypeName) -> bool
    ensures { result ≡ rows.is_derived table.now ty.now other.now }
{
    match (ty, other) {
        (TypeName::Named(class), TypeName::Named(other)) => table.inherits(class, other),
        _ => false,
    }
}

pub(crate) fn target_behind(ty: Option<&TypeName>) -> Option<&TypeName>
    ensures { option_copied result ≡ option_and_then shapes.target (option_copied ty.entry) }
{
    ty.and_then(|ty| target(ty))
}

pub(crate) fn object_behind(ty: Option<&TypeName>) -> Option<&TypeName>
    ensures { option_copied result ≡ option_and_then shapes.object_at (option_copied ty.entry) }
{
    ty.and_then(|ty| object_at(ty))
}

pub(crate) fn weak_behind(ty: Option<&TypeName>) -> Option<&TypeName>
    ensures { option_copied result ≡ option_and_then shapes.weak_at (option_copied ty.entry) }
{
    ty.and_then(|ty| weak_at(ty))
}

pub(crate) fn unowned_behind(ty: Option<&TypeName>) -> Option<&TypeName>
    ensures { option_copied result ≡ option_and_then shapes.unowned_at (option_copied ty.entry) }
{
    ty.and_then(|ty| unowned_at(ty))
}

pub(crate) fn element_within(number: Option<i64>, ty: Option<&TypeName>) -> Option<&TypeName>
    ensures { option_copied result ≡ option_and_then (shapes.element_of number) (option_copied ty.entry) }
{
    ty.and_then(|ty| element_of(number, ty))
}
