//! Whether values are other names only of values before them.

ghost use Rattle.std.specs.Prelude.{◌++◌, ◌<◌, [], All, IfSome, cond, map};
ghost use Rattle.std.specs.Bool.{OnTrue};
ghost use Rattle.std.specs.List.{flat_map};
ghost use Rattle.numbered_form.specs.Insts.{insts_of};
ghost use Rattle.numbered_form.specs.Lists.{Each};
ghost use Rattle.ownership_kinds_chains.specs.OwnershipChains.Chains.{HasNoRing};
ghost use Rattle.ownership_kinds_origins.specs.inner.InOrder.{LeadsOn};
ghost use Rattle.ownership_kinds_origins.specs.Renamings as spec;
ghost use Rattle.ownership_kinds_origins.specs.Renamings.{renamings_of, result_renamings};
ghost use Rattle.numbered_form.specs.ValueTables.FirstValue.{value_of};
ghost use Rattle.ownership_kinds_origins.specs.inner.Tables.{AreSwitches};

use crate::renamed::{operand_by_default, renames};
use crate::switched::Switched;
use crate::switching::switch_of;
use sil_ast::{Block, BlockArg, Boxed, Function, Inst, Operand};

/// Whether all operands have lesser numbers than this one.
fn are_before(operands: &[Operand], number: usize) -> bool
    ensures { OnTrue result (All (λ o. o.value.0 < number) operands.now) }
{
    for operand in operands {
        if operand.value.0 as usize >= number {
            return false;
        }
    }
    true
}

/// Whether the instruction makes its results other names only of values with lesser numbers than this one.
fn renames_before(inst: &Inst, number: usize) -> bool
    ensures { OnTrue result (Each (λ v. v.0 < number) (cond (spec.renames inst.now.op) (map value_of inst.now.operands) [])) }
{
    if renames(inst.op) {
        are_before(inst.operands.as_slice(), number)
    } else {
        true
    }
}

/// The number behind those of an instruction's results, of which the first has this number, unless one is another name
/// of a value behind it.
fn behind_results(inst: &Inst, number: usize) -> Option<usize>
    ensures { IfSome result (LeadsOn number (result_renamings inst.now)) }
{
    if renames_before(inst, number) {
        Some(number.saturating_add(inst.results.len()))
    } else {
        None
    }
}

/// The same of some instructions.
fn behind_insts(insts: &[Boxed<Inst>], mut number: usize) -> Option<usize>
    ensures { IfSome result (LeadsOn number (flat_map result_renamings insts.now)) }
{
    for inst in insts {
        number = behind_results(inst.get(), number)?;
    }
    Some(number)
}

/// Whether a switch hands a value with a lesser number than this one to the arguments of its default.
fn hands_before(switched: Option<Switched>, number: usize) -> bool
    ensures { OnTrue result (Each (λ v. v.0 < number) (spec.default_operand switched)) }
{
    match operand_by_default(switched) {
        Some(operand) => (operand.0 as usize) < number,
        None => true,
    }
}

/// The same of a block's arguments, to which this switch goes.
fn behind_args(switched: Option<Switched>, args: &[BlockArg], number: usize) -> Option<usize>
    ensures { IfSome result (LeadsOn number (map (spec.arg_renaming switched) args.now)) }
{
    if hands_before(switched, number) {
        Some(number.saturating_add(args.len()))
    } else {
        None
    }
}

/// The same of a block's arguments and its instructions.
fn behind_block(switched: Option<Switched>, block: &Block, number: usize) -> Option<usize>
    ensures { IfSome result (LeadsOn number (map (spec.arg_renaming switched) block.now.args ++ flat_map result_renamings (insts_of block.now))) }
{
    let number = behind_args(switched, block.args.as_slice(), number)?;
    let number = behind_insts(block.insts.as_slice(), number)?;
    behind_results(&block.terminator, number)
}

/// Whether each value of the function is another name only of values before it: then none is another name of itself.
/// `switches` has for each block the switch that goes to it.
pub fn are_renamed_in_order(f: &Function, switches: &[Option<Switched>]) -> bool
    requires { AreSwitches f.now switches.now }
    ensures { OnTrue result (HasNoRing (renamings_of f.now)) }
{
    let mut next = 0;
    for (number, block) in f.blocks.as_slice().iter().enumerate() {
        match behind_block(switch_of(switches, number), block, next) {
            None => return false,
            Some(behind) => next = behind,
        }
    }
    true
}
