//! The values that lowered code defines, in order.

ghost use Rattle.std.specs.Prelude.{◌≡◌, ◌++◌, ◌+◌, ◌<◌, ◌^◌, IfOk, OnOk, length, map};
ghost use Rattle.std.specs.List.{flat_map};
ghost use Rattle.ownership_lowering_model.specs.LoweredBlocks.{args_become, block_becomes, blocks_become};
ghost use Rattle.numbered_form.specs.Insts.{insts_in};
ghost use Rattle.numbered_form.specs.Numbering.{defined_in, value_of, values_of};
ghost use Rattle.ownership_lowering_functions.specs.FunctionLowering.inner.Drafts.{results_told};

use crate::function_lowering::draft::Draft;
use crate::function_lowering::drafting::draft_insts;
use crate::function_lowering::names::is_other_name;
use ownership_kinds_chains::Definition;
use sil_ast::{Block, BlockArg, Exhausted, List, ValueId};
use sil_types::TypeTable;
use std::alloc::Global;

/// Adds the arguments that have names of their own.
fn add_args(
    renamings: &[Definition],
    args: &[BlockArg],
    values: &mut List<ValueId>,
) -> Result<(), Exhausted>
    ensures { OnOk result (values.new ≡ values.old ++ map value_of (args_become renamings.now args.now)) }
{
    for arg in args {
        if !is_other_name(renamings, arg.value) {
            values.push(arg.value)?;
        }
    }
    Ok(())
}

fn add_values(more: &[ValueId], values: &mut List<ValueId>) -> Result<(), Exhausted>
    ensures { OnOk result (values.new ≡ values.old ++ more.now) }
{
    for value in more {
        values.push(*value)?;
    }
    Ok(())
}

/// Adds the results of an instruction.
fn add_results(draft: &Draft<'_>, values: &mut List<ValueId>) -> Result<(), Exhausted>
    ensures { OnOk result (values.new ≡ values.old ++ results_told draft.now) }
{
    match *draft {
        Draft::Kept { inst, .. } => add_values(inst.results.as_slice(), values),
        Draft::Counted { .. } => Ok(()),
        Draft::Loaded { result, .. } => values.push(result),
        Draft::Field { result, .. } => values.push(result),
        Draft::Element { result, .. } => values.push(result),
    }
}

fn add_all_results(drafts: &[Draft<'_>], values: &mut List<ValueId>) -> Result<(), Exhausted>
    ensures { OnOk result (values.new ≡ values.old ++ flat_map results_told drafts.now) }
{
    for draft in drafts {
        add_results(draft, values)?;
    }
    Ok(())
}

/// Adds the values that a block defines in lowered code. The first instruction's spare value has the number `spare`.
fn add_block(
    alloc: Global,
    table: &TypeTable,
    renamings: &[Definition],
    spare: u32,
    block: &Block,
    values: &mut List<ValueId>,
) -> Result<(), Exhausted>
    requires { spare + length block.now.insts < 2 ^ 32 }
    ensures { OnOk result (values.new ≡ values.old ++ defined_in (block_becomes table.now renamings.now spare block.now)) }
{
    add_args(renamings, block.args.as_slice(), values)?;
    let drafts = draft_insts(alloc, table, spare, block.insts.as_slice())?;
    add_all_results(drafts.as_slice(), values)?;
    add_values(block.terminator.results.as_slice(), values)
}

/// The values that blocks define in lowered code, in order. Fails where memory runs out.
pub(crate) fn defined_values(
    alloc: Global,
    table: &TypeTable,
    renamings: &[Definition],
    mut spare: u32,
    blocks: &[Block],
) -> Result<List<ValueId>, Exhausted>
    requires { spare + length (insts_in blocks.now) < 2 ^ 32 }
    ensures { IfOk result (λ values. values ≡ values_of (blocks_become table.now renamings.now spare blocks.now)) }
{
    let mut values = List::with_capacity(alloc, renamings.len())?;
    for block in blocks {
        add_block(alloc, table, renamings, spare, block, &mut values)?;
        spare += block.insts.len() as u32;
    }
    Ok(values)
}
