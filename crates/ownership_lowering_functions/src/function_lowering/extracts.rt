//! The extracts that stand for a `destructure_struct` or a `destructure_tuple`.

ghost use Rattle.std.specs.Prelude.{◌≡◌, ◌++◌, OnOk, map};
ghost use Rattle.std.specs.List.{flat_map};
ghost use Rattle.ownership_lowering_model.specs.Extracts as extracts;
ghost use Rattle.ownership_lowering_functions.specs.FunctionLowering.inner.Drafts.{told_insts};

use crate::function_lowering::draft::Draft;
use sil_ast::{Exhausted, Field, List, Operand, Text, TypeName, ValueId};
use sil_types::TypeTable;
use sil_types::members::fields_of_struct;

/// Adds an extract for each field and its value.
fn add_fields<'a>(
    whole: &'a Operand,
    owner: &'a Text,
    fields: &'a [Field],
    values: &[ValueId],
    drafts: &mut List<Draft<'a>>,
) -> Result<(), Exhausted>
    ensures { OnOk result (told_insts drafts.new
        ≡ told_insts drafts.old ++ extracts.field_extracts whole.now (map (extracts.member_of owner.now) fields.now) values.now) }
{
    for (index, field) in fields.iter().enumerate() {
        let Some(value) = values.get(index) else {
            return Ok(());
        };
        drafts.push(Draft::Field {
            whole,
            owner,
            name: &field.name,
            result: *value,
        })?;
    }
    Ok(())
}

/// Adds an extract for each field of an operand whose type is a struct.
fn add_extracted_fields<'a>(
    table: &'a TypeTable,
    whole: &'a Operand,
    values: &[ValueId],
    drafts: &mut List<Draft<'a>>,
) -> Result<(), Exhausted>
    ensures { OnOk result (told_insts drafts.new ≡ told_insts drafts.old ++ extracts.extracts_fields table.now values.now whole.now) }
{
    let Some(ty) = &whole.ty else {
        return Ok(());
    };
    let TypeName::Named(owner) = ty else {
        return Ok(());
    };
    match fields_of_struct(table, ty) {
        Some(fields) => add_fields(whole, owner, fields, values, drafts),
        None => Ok(()),
    }
}

/// Adds what becomes of a `destructure_struct` of these operands.
pub(crate) fn add_field_extracts<'a>(
    table: &'a TypeTable,
    operands: &'a [Operand],
    values: &[ValueId],
    drafts: &mut List<Draft<'a>>,
) -> Result<(), Exhausted>
    ensures { OnOk result (told_insts drafts.new ≡ told_insts drafts.old ++ flat_map (extracts.extracts_fields table.now values.now) operands.now) }
{
    for whole in operands {
        add_extracted_fields(table, whole, values, drafts)?;
    }
    Ok(())
}

/// Adds an extract for each element and its value.
fn add_extracted_elements<'a>(
    whole: &'a Operand,
    values: &[ValueId],
    drafts: &mut List<Draft<'a>>,
) -> Result<(), Exhausted>
    ensures { OnOk result (told_insts drafts.new ≡ told_insts drafts.old ++ extracts.extracts_elements values.now whole.now) }
{
    for (number, value) in values.iter().enumerate() {
        drafts.push(Draft::Element {
            whole,
            number: number as i64,
            result: *value,
        })?;
    }
    Ok(())
}

/// Adds what becomes of a `destructure_tuple` of these operands.
pub(crate) fn add_element_extracts<'a>(
    operands: &'a [Operand],
    values: &[ValueId],
    drafts: &mut List<Draft<'a>>,
) -> Result<(), Exhausted>
    ensures { OnOk result (told_insts drafts.new ≡ told_insts drafts.old ++ flat_map (extracts.extracts_elements values.now) operands.now) }
{
    for whole in operands {
        add_extracted_elements(whole, values, drafts)?;
    }
    Ok(())
}
