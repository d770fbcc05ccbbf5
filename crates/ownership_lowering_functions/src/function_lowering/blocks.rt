//! Blocks as lowered code, with new numbers. Instructions that stay are not copied.

ghost use Rattle.std.specs.Prelude.{◌≡◌, ◌++◌, ◌+◌, ◌<◌, ◌^◌, IfOk, OnOk, List, length, map};
ghost use Rattle.ownership_lowering_model.specs.LoweredBlocks.{args_become, block_becomes, blocks_become, insts_become};
ghost use Rattle.ownership_lowering_model.specs.LoweredInsts as insts;
ghost use Rattle.ownership_lowering_model.specs.Numbers as renumbered;
ghost use Rattle.numbered_form.specs.Insts.{insts_in};
ghost use Rattle.ownership_kinds_chains.specs.declared.ownership_chains.definition.Definition.{Definition};
ghost use Rattle.ownership_lowering_functions.specs.ValueRenumbering.inner.NewNumbers.{number_in};
ghost use Rattle.ownership_lowering_functions.specs.FunctionLowering.inner.Drafts.{told_insts};

use crate::function_lowering::draft::Draft;
use crate::function_lowering::drafting::add_inst;
use crate::function_lowering::names::is_other_name;
use crate::function_lowering::staying::kept_alone;
use crate::function_lowering::writing::written_inst;
use crate::value_renumbering::{NewNumbers, renumber_inst};
use ownership_kinds_chains::Definition;
use sil_ast::{ArgKind, Block, BlockArg, Boxed, Exhausted, Inst, List, ValueId};
use sil_types::TypeTable;
use std::alloc::Global;
use std::mem;

/// The arguments that have names of their own, without their annotations.
fn lowered_args(
    alloc: Global,
    renamings: &[Definition],
    numbers: &NewNumbers,
    args: List<BlockArg>,
) -> Result<List<BlockArg>, Exhausted>
    ensures { IfOk result (λ lowered. lowered ≡ map (renumbered.renumbered_arg (number_in numbers.now)) (args_become renamings.now args)) }
{
    let mut lowered = List::with_capacity(alloc, args.len())?;
    for arg in args.into_vec() {
        if !is_other_name(renamings, arg.value) {
            lowered.push(BlockArg {
                value: numbers.number(arg.value),
                kind: ArgKind::Plain,
                ty: arg.ty,
            })?;
        }
    }
    Ok(lowered)
}

/// Adds the instructions that drafts stand for, with new numbers.
fn add_written(
    alloc: Global,
    numbers: &NewNumbers,
    drafts: &[Draft<'_>],
    lowered: &mut List<Boxed<Inst>>,
) -> Result<(), Exhausted>
    ensures { OnOk result (lowered.new ≡ lowered.old ++ map (renumbered.renumbered_inst (number_in numbers.now)) (told_insts drafts.now)) }
{
    for draft in drafts {
        lowered.push(written_inst(alloc, numbers, draft)?)?;
    }
    Ok(())
}

/// Adds what an instruction becomes that doesn't stay, or not alone.
fn add_others(
    alloc: Global,
    table: &TypeTable,
    numbers: &NewNumbers,
    spare: ValueId,
    inst: &Inst,
    lowered: &mut List<Boxed<Inst>>,
) -> Result<(), Exhausted>
    ensures { OnOk result (lowered.new ≡ lowered.old ++ map (renumbered.renumbered_inst (number_in numbers.now)) (insts.becomes table.now spare inst.now)) }
{
    let mut drafts = List::new(alloc);
    add_inst(table, spare, inst, &mut drafts)?;
    add_written(alloc, numbers, drafts.as_slice(), lowered)
}

/// Adds what an instruction becomes. One that stays alone is moved in its box.
fn add_lowered(
    alloc: Global,
    table: &TypeTable,
    numbers: &NewNumbers,
    spare: ValueId,
    mut inst: Boxed<Inst>,
    lowered: &mut List<Boxed<Inst>>,
) -> Result<(), Exhausted>
    ensures { OnOk result (lowered.new ≡ lowered.old ++ map (renumbered.renumbered_inst (number_in numbers.now)) (insts.becomes table.now spare inst)) }
{
    match kept_alone(inst.get()) {
        Some(kept) => {
            kept.write(numbers, inst.get_mut());
            lowered.push(inst)
        }
        None => add_others(alloc, table, numbers, spare, inst.get(), lowered),
    }
}

/// What the instructions of a block become. The first one's spare value has the number `spare`.
fn lowered_insts(
    alloc: Global,
    table: &TypeTable,
    numbers: &NewNumbers,
    mut spare: u32,
    insts: List<Boxed<Inst>>,
) -> Result<List<Boxed<Inst>>, Exhausted>
    requires { spare + length insts < 2 ^ 32 }
    ensures { IfOk result (λ lowered. (renamings : List Definition)
        → lowered ≡ map (renumbered.renumbered_inst (number_in numbers.now)) (insts_become table.now renamings spare insts)) }
{
    let mut lowered = List::with_capacity(alloc, insts.len())?;
    for inst in insts.into_vec() {
        add_lowered(alloc, table, numbers, ValueId(spare), inst, &mut lowered)?;
        spare += 1;
    }
    Ok(lowered)
}

/// Lowers a block. Where memory runs out, parts of it are lost.
fn lower_block(
    alloc: Global,
    table: &TypeTable,
    renamings: &[Definition],
    numbers: &NewNumbers,
    spare: u32,
    block: &mut Block,
) -> Result<(), Exhausted>
    requires { spare + length block.old.insts < 2 ^ 32 }
    ensures { OnOk result (block.new ≡ renumbered.renumbered_block (number_in numbers.now) (block_becomes table.now renamings.now spare block.old)) }
{
    let args = mem::replace(&mut block.args, List::new(alloc));
    block.args = lowered_args(alloc, renamings, numbers, args)?;
    let insts = mem::replace(&mut block.insts, List::new(alloc));
    block.insts = lowered_insts(alloc, table, numbers, spare, insts)?;
    renumber_inst(numbers, &mut block.terminator);
    Ok(())
}

/// Lowers the blocks of a function. The first instruction's spare value has the number `spare`. Where memory runs out, parts are lost.
pub(crate) fn lower_blocks(
    alloc: Global,
    table: &TypeTable,
    renamings: &[Definition],
    numbers: &NewNumbers,
    mut spare: u32,
    blocks: &mut [Block],
) -> Result<(), Exhausted>
    requires { spare + length (insts_in blocks.old) < 2 ^ 32 }
    ensures { OnOk result (blocks.new ≡ renumbered.renumbered (number_in numbers.now) (blocks_become table.now renamings.now spare blocks.old)) }
{
    for block in blocks.iter_mut() {
        let count = block.insts.len() as u32;
        lower_block(alloc, table, renamings, numbers, spare, block)?;
        spare += count;
    }
    Ok(())
}
