//! What each instruction becomes.

ghost use Rattle.std.specs.Prelude.{◌≡◌, ◌++◌, ◌+◌, ◌<◌, ◌^◌, IfOk, OnOk, List, length, map};
ghost use Rattle.ownership_lowering_model.specs.LoweredBlocks.{insts_become};
ghost use Rattle.ownership_lowering_model.specs.LoweredInsts as insts;
ghost use Rattle.ownership_kinds_chains.specs.declared.ownership_chains.definition.Definition.{Definition};
ghost use Rattle.ownership_lowering_functions.specs.FunctionLowering.inner.Drafts.{told_insts};

use crate::function_lowering::counts::{add_releases, add_retains};
use crate::function_lowering::draft::Draft;
use crate::function_lowering::extracts::{add_element_extracts, add_field_extracts};
use crate::function_lowering::words::{add_destroy, add_load, add_store};
use instruction_table::Op;
use ownership_lowering_model::{LOWERINGS, Lowering};
use sil_ast::{Boxed, Exhausted, Inst, List, ValueId};
use sil_types::TypeTable;
use std::alloc::Global;

pub(crate) fn lowering_of(op: Op) -> Lowering
    ensures { result ≡ insts.lowering_of op }
{
    LOWERINGS[op as usize]
}

/// Adds what becomes of an instruction. `spare` is a new value, for what a place held.
pub(crate) fn add_inst<'a>(
    table: &'a TypeTable,
    spare: ValueId,
    inst: &'a Inst,
    drafts: &mut List<Draft<'a>>,
) -> Result<(), Exhausted>
    ensures { OnOk result (told_insts drafts.new ≡ told_insts drafts.old ++ insts.becomes table.now spare inst.now) }
{
    match lowering_of(inst.op) {
        Lowering::Stays => drafts.push(Draft::Kept {
            inst,
            op: inst.op,
            qualifier: inst.qualifier,
        }),
        Lowering::Vanishes => Ok(()),
        Lowering::Retains => add_retains(table, inst.operands.as_slice(), drafts),
        Lowering::Releases => add_releases(table, inst.operands.as_slice(), drafts),
        Lowering::Loads => add_load(table, inst, drafts),
        Lowering::Stores => add_store(table, spare, inst, drafts),
        Lowering::Destroys => add_destroy(table, spare, inst, drafts),
        Lowering::ExtractsFields => add_field_extracts(
            table,
            inst.operands.as_slice(),
            inst.results.as_slice(),
            drafts,
        ),
        Lowering::ExtractsElements => add_element_extracts(
            inst.operands.as_slice(),
            inst.results.as_slice(),
            drafts,
        ),
    }
}

/// What becomes of the instructions of a block. The first one's spare value has the number `spare`.
pub(crate) fn draft_insts<'a>(
    alloc: Global,
    table: &'a TypeTable,
    mut spare: u32,
    insts: &'a [Boxed<Inst>],
) -> Result<List<Draft<'a>>, Exhausted>
    requires { spare + length insts.now < 2 ^ 32 }
    ensures { IfOk result (λ drafts. (renamings : List Definition) → told_insts drafts ≡ insts_become table.now renamings spare insts.now) }
{
    let mut drafts = List::with_capacity(alloc, insts.len())?;
    for inst in insts {
        add_inst(table, ValueId(spare), inst.get(), &mut drafts)?;
        spare += 1;
    }
    Ok(drafts)
}
