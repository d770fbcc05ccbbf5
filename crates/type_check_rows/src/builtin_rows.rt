//! The row of `builtin`, by the operation that it names.

ghost use Rattle.std.specs.Prelude.{◌≡◌, [], ◌∷◌, List, option_and_then, option_map};
ghost use Rattle.std.specs.Option.{option_copied};
ghost use Rattle.sil_ast.specs.declared.type_name.TypeName.{TypeName};
ghost use Rattle.sil_ast.specs.declared.type_name.TypeName.TheVariants as type;
ghost use Rattle.sil_types.specs.Typing.Builtins as builtins;
ghost use Rattle.sil_types.specs.Typing.Builtins.{builtin_operands, builtin_result};
ghost use Rattle.sil_types.specs.Typing.RowTypes as rows;
ghost use Rattle.sil_types.specs.Typing.RowTypes.{all_written};
ghost use Rattle.sil_types.specs.Typing.Same.{are_same_types, is_same_type};
ghost use Rattle.type_check_rows.specs.inner.BuiltinViews.{are_behind, builtin_told};
ghost use Rattle.type_check_rows.specs.inner.Views.{made_told};

use crate::builtins::{BuiltinAt, Sort, bits, builtin_named, sort_of};
use crate::view::{Made, TypeView};
use crate::written_types::{next_written, none_written};
use sil_ast::{Inst, Operand, TypeName};

/// Whether it is the builtin integer of this width.
fn is_integer_of(width: u8, ty: &TypeName) -> bool
    ensures left { result ≡ is_same_type ty.now (type.Int width) }
    ensures right { result ≡ is_same_type (type.Int width) ty.now }
{
    match ty {
        TypeName::Int(own) => *own == width,
        _ => false,
    }
}

/// The operands behind the first written type, where that is the builtin integer of this width.
fn behind_integer(width: u8, operands: &[Operand]) -> Option<&[Operand]>
    ensures { (types : List TypeName) → are_same_types (all_written operands.now) (type.Int width ∷ types) ≡ are_behind types (option_copied result) }
{
    match next_written(operands) {
        Some(next) => {
            if is_integer_of(width, next.ty) {
                Some(next.rest)
            } else {
                None
            }
        }
        None => None,
    }
}

/// Whether the types that are written at the operands are those of the operation.
fn are_operands_of(builtin: BuiltinAt, operands: &[Operand]) -> bool
    ensures { result ≡ are_same_types (all_written operands.now) (builtin_operands (builtin_told builtin)) }
{
    let width = bits(builtin.width);
    let Some(second) = behind_integer(width, operands) else {
        return false;
    };
    let Some(third) = behind_integer(width, second) else {
        return false;
    };
    match sort_of(builtin.operation) {
        Sort::Overflowing => match behind_integer(1, third) {
            Some(rest) => none_written(rest),
            None => false,
        },
        Sort::Comparing => none_written(third),
        Sort::Combining => none_written(third),
    }
}

fn are_integer_and_bit(width: u8, parts: &[TypeName]) -> bool
    ensures { result ≡ are_same_types (type.Int width ∷ type.Int 1 ∷ []) parts.now }
{
    match parts {
        [first, second] => is_integer_of(width, first) && is_integer_of(1, second),
        _ => false,
    }
}

fn is_integer_with_bit(width: u8, ty: &TypeName) -> bool
    ensures { result ≡ is_same_type (type.Tuple (type.Int width ∷ type.Int 1 ∷ [])) ty.now }
{
    match ty {
        TypeName::Tuple(parts) => are_integer_and_bit(width, parts.get().as_slice()),
        _ => false,
    }
}

/// Whether it is the type of what the operation gives.
fn is_result_of(builtin: BuiltinAt, ty: &TypeName) -> bool
    ensures { result ≡ is_same_type (builtin_result (builtin_told builtin)) ty.now }
{
    let width = bits(builtin.width);
    match sort_of(builtin.operation) {
        Sort::Overflowing => is_integer_with_bit(width, ty),
        Sort::Comparing => is_integer_of(1, ty),
        Sort::Combining => is_integer_of(width, ty),
    }
}

fn named_in(inst: &Inst) -> Option<BuiltinAt>
    ensures { option_map builtin_told result ≡ option_and_then builtins.builtin_named inst.now.text }
{
    match &inst.text {
        Some(name) => builtin_named(name.get().as_slice()),
        None => None,
    }
}

fn gives_builtin(inst: &Inst, builtin: BuiltinAt) -> Option<Made<'_>>
    ensures { option_map made_told result ≡ rows.gives_builtin inst.now inst.now.ty (builtin_told builtin) }
{
    if !are_operands_of(builtin, inst.operands.as_slice()) {
        return None;
    }
    match &inst.ty {
        Some(ty) => {
            if is_result_of(builtin, ty) {
                Some(Made::One(TypeView::Written(ty)))
            } else {
                None
            }
        }
        None => None,
    }
}

/// `builtin "..."(..) : $T` by the operation that it names.
pub(crate) fn of_builtin(inst: &Inst) -> Option<Made<'_>>
    ensures { option_map made_told result ≡ rows.of_builtin inst.now }
{
    match named_in(inst) {
        Some(builtin) => gives_builtin(inst, builtin),
        None => None,
    }
}
