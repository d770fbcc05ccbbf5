//! Retains and releases.

ghost use Rattle.std.specs.Prelude.{◌≡◌, ◌++◌, OnOk, map, option_and_then};
ghost use Rattle.std.specs.Option.{option_copied};
ghost use Rattle.ownership_lowering_model.specs.NewInsts as insts;
ghost use Rattle.sil_types.specs.Typing.RowTypes.{passes};
ghost use Rattle.sil_types.specs.Typing.Shapes as shapes;
ghost use Rattle.sil_types_declarations.specs.TypeDefinitions.Rules as rules;
ghost use Rattle.ownership_lowering_functions.specs.FunctionLowering.inner.Drafts.{told, told_insts};

use crate::function_lowering::draft::Draft;
use instruction_table::Op;
use sil_ast::{Exhausted, List, Operand, TypeName, ValueId};
use sil_types::TypeTable;
use sil_types::shapes::{is_class_type, target};

fn is_class(table: &TypeTable, ty: Option<&TypeName>) -> bool
    ensures { result ≡ passes (rules.is_class_type table.now) (option_copied ty.entry) }
{
    match ty {
        Some(ty) => is_class_type(table, ty),
        None => false,
    }
}

/// A retain of a value of a type.
pub(crate) fn retain<'a>(table: &TypeTable, value: ValueId, ty: Option<&'a TypeName>) -> Draft<'a>
    ensures { told result ≡ insts.retain table.now (insts.typed_operand (option_copied ty.entry) value) }
{
    let op = if is_class(table, ty) {
        Op::StrongRetain
    } else {
        Op::RetainValue
    };
    Draft::Counted { op, value, ty }
}

/// A release of a value of a type.
pub(crate) fn release<'a>(table: &TypeTable, value: ValueId, ty: Option<&'a TypeName>) -> Draft<'a>
    ensures { told result ≡ insts.release table.now (insts.typed_operand (option_copied ty.entry) value) }
{
    let op = if is_class(table, ty) {
        Op::StrongRelease
    } else {
        Op::ReleaseValue
    };
    Draft::Counted { op, value, ty }
}

/// The type at a place.
pub(crate) fn type_at(place: &Operand) -> Option<&TypeName>
    ensures { option_copied result ≡ option_and_then shapes.target place.now.ty }
{
    match &place.ty {
        Some(ty) => target(ty),
        None => None,
    }
}

/// Adds a retain of each operand.
pub(crate) fn add_retains<'a>(
    table: &TypeTable,
    operands: &'a [Operand],
    drafts: &mut List<Draft<'a>>,
) -> Result<(), Exhausted>
    ensures { OnOk result (told_insts drafts.new ≡ told_insts drafts.old ++ map (insts.retain table.now) operands.now) }
{
    for operand in operands {
        drafts.push(retain(table, operand.value, operand.ty.as_ref()))?;
    }
    Ok(())
}

/// Adds a release of each operand.
pub(crate) fn add_releases<'a>(
    table: &TypeTable,
    operands: &'a [Operand],
    drafts: &mut List<Draft<'a>>,
) -> Result<(), Exhausted>
    ensures { OnOk result (told_insts drafts.new ≡ told_insts drafts.old ++ map (insts.release table.now) operands.now) }
{
    for operand in operands {
        drafts.push(release(table, operand.value, operand.ty.as_ref()))?;
    }
    Ok(())
}

/// Adds a retain of each value that was loaded from a place.
pub(crate) fn add_retains_loaded<'a>(
    table: &TypeTable,
    place: &'a Operand,
    values: &[ValueId],
    drafts: &mut List<Draft<'a>>,
) -> Result<(), Exhausted>
    ensures { OnOk result (told_insts drafts.new ≡ told_insts drafts.old ++ map (λ v. insts.retain table.now (insts.loaded_from place.now v)) values.now) }
{
    let ty = type_at(place);
    for value in values {
        drafts.push(retain(table, *value, ty))?;
    }
    Ok(())
}
