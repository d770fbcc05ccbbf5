//! Functions, lowered where they stand.

ghost use Rattle.std.specs.Prelude.{◌≡◌, IfOk, OnOk, map};
ghost use Rattle.sil_ast.specs.declared.place.ValueId.{ValueId};
ghost use Rattle.ownership_lowering_model.specs.LoweredModules as modules;
ghost use Rattle.ownership_lowering_model.specs.Numbers.{new_number, numbering_of};
ghost use Rattle.ownership_kinds_origins.specs.Renamings.{renamings_of};
ghost use Rattle.ownership_lowering_functions.specs.ValueRenumbering.inner.NewNumbers.{number_in};
ghost use Rattle.ownership_lowering_functions.specs.FunctionLowering.inner.Lowerable.{AreLowerable, IsLowerable, IsLowerableByForm};

use crate::function_lowering::blocks::lower_blocks;
use crate::function_lowering::defined::defined_values;
use crate::function_lowering::numbers::numbers_of_names;
use crate::value_renumbering::{NewNumbers, numbers_by_place};
use ownership_kinds_chains::Definition;
use ownership_kinds_origins::{renamings, switches};
use sil_ast::{Exhausted, Form, Function};
use sil_types::TypeTable;
use std::alloc::Global;

/// The new numbers of a function's values, by its renamings.
fn new_numbers(
    alloc: Global,
    table: &TypeTable,
    f: &Function,
    renamings: &[Definition],
) -> Result<NewNumbers, Exhausted>
    requires lowerable { IsLowerable f.now }
    requires renamings { renamings.now ≡ renamings_of f.now }
    ensures { IfOk result (λ numbers. (v : ValueId) → number_in numbers v ≡ new_number (numbering_of table.now f.now) v) }
{
    let spare = renamings.len() as u32;
    let defined = defined_values(alloc, table, renamings, spare, f.blocks.as_slice())?;
    let places = numbers_by_place(alloc, defined.as_slice())?;
    numbers_of_names(alloc, renamings, places)
}

/// Lowers the blocks of a function, by its renamings.
fn lower_code(
    alloc: Global,
    table: &TypeTable,
    f: &mut Function,
    renamings: &[Definition],
) -> Result<(), Exhausted>
    requires lowerable { IsLowerable f.old }
    requires renamings { renamings.now ≡ renamings_of f.old }
    ensures { OnOk result (f.new ≡ record f.old { blocks = (modules.lowered_body table.now f.old).blocks }) }
{
    let numbers = new_numbers(alloc, table, f, renamings)?;
    lower_blocks(
        alloc,
        table,
        renamings,
        &numbers,
        renamings.len() as u32,
        f.blocks.as_mut_slice(),
    )
}

/// Lowers a function in ownership form.
fn lower_body(alloc: Global, table: &TypeTable, f: &mut Function) -> Result<(), Exhausted>
    requires { IsLowerable f.old }
    ensures { OnOk result (f.new ≡ modules.lowered_body table.now f.old) }
{
    let switches = switches(alloc, f)?;
    let renamings = renamings(alloc, f, switches.as_slice())?;
    lower_code(alloc, table, f, renamings.as_slice())?;
    f.form = Form::Lowered;
    Ok(())
}

/// Lowers a function where it is in ownership form.
fn lower_function(alloc: Global, table: &TypeTable, f: &mut Function) -> Result<(), Exhausted>
    requires { IsLowerableByForm f.old.form f.old }
    ensures { OnOk result (f.new ≡ modules.lowered_function table.now f.old) }
{
    match f.form {
        Form::Ossa => lower_body(alloc, table, f),
        Form::Lowered | Form::External => Ok(()),
    }
}

/// Lowers the functions of a module. Where memory runs out, parts of them are lost.
pub fn lower_functions(
    alloc: Global,
    table: &TypeTable,
    functions: &mut [Function],
) -> Result<(), Exhausted>
    requires { AreLowerable functions.old }
    ensures { OnOk result (functions.new ≡ map (modules.lowered_function table.now) functions.old) }
{
    for f in functions.iter_mut() {
        lower_function(alloc, table, f)?;
    }
    Ok(())
}
