//! Where the leaves of a member begin.

ghost use Rattle.std.specs.Prelude.{◌≡◌, ◌≤◌, map, sum, take};
ghost use Rattle.holder_model_values.specs.RunValues.Shapes.{member_shapes, shape_of};
ghost use Rattle.count_machine_model.specs.ReadyCode.ReadyOps.{leaf_offset};
ghost use Rattle.sil_rules.specs.declared.limits.TheConstants.{LEAVES};
ghost use Rattle.sil_types.specs.Typing.Shapes.{field_type};
ghost use Rattle.sil_types_declarations.specs.TypeDefinitions.Measures.{leaves_of};
ghost use Rattle.count_machine_layouts.specs.FrameLayouts.inner.Sized.{HasSize};
ghost use Rattle.count_machine_ready.specs.inner.Bodies.{IsBody, declared};

use crate::body::Body;
use sil_ast::{Field, TypeName};
use sil_types::TypeTable;
use sil_types::members::fields_of_struct;
use sil_types::shapes::elements;

/// The first elements, at most so many.
fn front<T>(items: &[T], count: usize) -> &[T]
    ensures { result.now ≡ take count items.now }
{
    items.get(..count).unwrap_or(items)
}

/// How many leaves some fields have together.
fn leaves_of_fields(table: &TypeTable, fields: &[Field]) -> u32
    requires { sum (map (leaves_of table.now) (map field_type fields.now)) ≤ LEAVES }
    ensures { result ≡ sum (map (leaves_of table.now) (map field_type fields.now)) }
{
    let mut leaves = 0;
    for field in fields {
        leaves += table.leaves(&field.ty);
    }
    leaves
}

/// How many leaves some types have together.
fn leaves_of_types(table: &TypeTable, types: &[TypeName]) -> u32
    requires { sum (map (leaves_of table.now) types.now) ≤ LEAVES }
    ensures { result ≡ sum (map (leaves_of table.now) types.now) }
{
    let mut leaves = 0;
    for ty in types {
        leaves += table.leaves(ty);
    }
    leaves
}

/// How many leaves lie before the member at a place of a type.
pub(crate) fn leaf_offset(body: &Body<'_>, ty: &TypeName, place: usize) -> u32
    requires body { IsBody body.now }
    requires size { HasSize (declared body.now) ty.now }
    ensures { result ≡ leaf_offset (member_shapes (shape_of (declared body.now) ty.now)) place }
{
    match fields_of_struct(body.table, ty) {
        Some(fields) => leaves_of_fields(body.table, front(fields, place)),
        None => match elements(ty) {
            Some(types) => leaves_of_types(body.table, front(types, place)),
            None => 0,
        },
    }
}
