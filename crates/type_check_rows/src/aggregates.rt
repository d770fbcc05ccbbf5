//! The rows that put values together: `struct`, `tuple` and `enum`.

ghost use Rattle.std.specs.Prelude.{◌≡◌, option_map};
ghost use Rattle.std.specs.Option.{option_copied, option_to_list};
ghost use Rattle.sil_types.specs.Typing.RowTypes as rows;
ghost use Rattle.sil_types.specs.Typing.RowTypes.{all_written, is_made_by_case, is_struct_of};
ghost use Rattle.sil_types.specs.Typing.Same.{are_same_types};
ghost use Rattle.type_check_rows.specs.inner.Views.{made_told};

use crate::view::{Made, TypeView};
use crate::written_types::{are_elements, next_written, none_written};
use sil_ast::{Field, Inst, Operand, TypeName};
use sil_types::members::{case_in, fields_of_struct};
use sil_types::shapes::is_enum;
use sil_types::{TypeTable, same_type};

/// Whether the types that are written at the operands are those of the fields.
fn are_field_types(operands: &[Operand], fields: &[Field]) -> bool
    ensures { result ≡ rows.are_field_types (all_written operands.now) fields.now }
{
    let mut rest = operands;
    for field in fields {
        let Some(next) = next_written(rest) else {
            return false;
        };
        if !same_type(next.ty, &field.ty) {
            return false;
        }
        rest = next.rest;
    }
    none_written(rest)
}

fn is_struct_of(table: &TypeTable, operands: &[Operand], ty: &TypeName) -> bool
    ensures { result ≡ is_struct_of table.now (all_written operands.now) ty.now }
{
    match fields_of_struct(table, ty) {
        Some(fields) => are_field_types(operands, fields),
        None => false,
    }
}

/// `struct $S (..)` with the fields of S in order.
pub(crate) fn of_struct<'a>(table: &'a TypeTable, inst: &'a Inst) -> Option<Made<'a>>
    ensures { option_map made_told result ≡ rows.of_struct table.now inst.now }
{
    match &inst.ty {
        Some(ty) => {
            if is_struct_of(table, inst.operands.as_slice(), ty) {
                Some(Made::One(TypeView::Written(ty)))
            } else {
                None
            }
        }
        None => None,
    }
}

/// `tuple (..)` of objects, but not of one.
pub(crate) fn of_tuple(inst: &Inst) -> Option<Made<'_>>
    ensures { option_map made_told result ≡ rows.of_tuple inst.now }
{
    let operands = inst.operands.as_slice();
    if are_elements(operands) {
        Some(Made::One(TypeView::TupleOf(operands)))
    } else {
        None
    }
}

/// Whether the types that are written at the operands are the payload, or none where there is none.
fn is_payload(operands: &[Operand], payload: Option<&TypeName>) -> bool
    ensures { result ≡ are_same_types (all_written operands.now) (option_to_list (option_copied payload.entry)) }
{
    match (next_written(operands), payload) {
        (Some(next), Some(payload)) => same_type(next.ty, payload) && none_written(next.rest),
        (None, None) => true,
        _ => false,
    }
}

fn is_made_by_case(table: &TypeTable, inst: &Inst, ty: &TypeName) -> bool
    ensures { result ≡ is_made_by_case table.now inst.now ty.now }
{
    match &inst.member {
        Some(member) => match case_in(table, member.get(), ty) {
            Some(found) => is_payload(inst.operands.as_slice(), found.ty),
            None => false,
        },
        None => false,
    }
}

/// `enum $E, #E.c!enumelt, V`, with V where c has a payload, of its type.
pub(crate) fn of_enum<'a>(table: &'a TypeTable, inst: &'a Inst) -> Option<Made<'a>>
    ensures { option_map made_told result ≡ rows.of_enum table.now inst.now }
{
    match &inst.ty {
        Some(ty) => {
            if is_enum(table, ty) && is_made_by_case(table, inst, ty) {
                Some(Made::One(TypeView::Written(ty)))
            } else {
                None
            }
        }
        None => None,
    }
}
