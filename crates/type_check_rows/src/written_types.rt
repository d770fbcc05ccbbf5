//! The types that are written at operands, one after another.

ghost use Rattle.std.specs.Prelude.{◌≡◌, ◌==◌, ◌≤◌, length, not};
ghost use Rattle.std.specs.List.{list_all};
ghost use Rattle.sil_types.specs.Typing.RowTypes as rows;
ghost use Rattle.sil_types.specs.Typing.RowTypes.{all_written};
ghost use Rattle.sil_types.specs.Typing.Shapes as shapes;
ghost use Rattle.type_check_rows.specs.inner.Views.{next_told};

use sil_ast::{Inst, Operand, TypeName};
use sil_types::shapes::is_object;

/// The first of the types that are written at some operands, with the operands behind it.
#[derive(Clone, Copy)]
pub(crate) struct NextWritten<'a> {
    pub ty: &'a TypeName,
    pub rest: &'a [Operand],
}

pub(crate) fn next_written(operands: &[Operand]) -> Option<NextWritten<'_>>
    ensures { all_written operands.now ≡ next_told result }
{
    for (i, operand) in operands.iter().enumerate() {
        if let Some(ty) = &operand.ty {
            return Some(NextWritten {
                ty,
                rest: &operands[i + 1..],
            });
        }
    }
    None
}

/// Whether no type is written at the operands.
pub(crate) fn none_written(operands: &[Operand]) -> bool
    ensures { result ≡ (length (all_written operands.now) == 0) }
{
    next_written(operands).is_none()
}

/// Whether one type is written at the operands.
fn one_written(operands: &[Operand]) -> bool
    ensures { result ≡ (length (all_written operands.now) == 1) }
{
    match next_written(operands) {
        Some(next) => none_written(next.rest),
        None => false,
    }
}

fn is_written_object(operand: &Operand) -> bool
    ensures { result ≡ list_all shapes.is_object (rows.types_of operand.now) }
{
    match &operand.ty {
        Some(ty) => is_object(ty),
        None => true,
    }
}

fn are_objects(operands: &[Operand]) -> bool
    ensures { result ≡ list_all shapes.is_object (all_written operands.now) }
{
    for operand in operands {
        if !is_written_object(operand) {
            return false;
        }
    }
    true
}

/// Whether the types that are written are those of a tuple's elements: objects, but not one.
pub(crate) fn are_elements(operands: &[Operand]) -> bool
    ensures { result ≡ rows.are_elements (all_written operands.now) }
{
    !one_written(operands) && are_objects(operands)
}
