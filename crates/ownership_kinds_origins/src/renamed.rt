//! Which values are other names of others.

ghost use Rattle.std.specs.Prelude.{◌≡◌, ◌++◌, [], IfOk, OnOk, map, cond};
ghost use Rattle.std.specs.Option.{option_to_list};
ghost use Rattle.ownership_kinds_origins.specs.Renamings as spec;
ghost use Rattle.ownership_kinds_origins.specs.Renamings.{default_operand, renamed, renamings_of, result_renamings};
ghost use Rattle.numbered_form.specs.ValueTables.FirstValue.{value_of};
ghost use Rattle.ownership_kinds_origins.specs.inner.Tables.{AreSwitches, switch_at};

use crate::operands::{one_or_none, operand_values};
use crate::renaming::RENAMINGS;
use crate::switched::Switched;
use crate::switching::switch_of;
use instruction_table::Op;
use numbered_form::{ValueTable, add_values, room_for_values};
use ownership_kinds_chains::{Definition, Origin};
use sil_ast::{BlockArg, Exhausted, Function, Inst, List, ShortList, ValueId};
use std::alloc::Global;

/// Whether the result is lowered to another name for the operand.
pub(crate) fn renames(op: Op) -> bool
    ensures { result ≡ spec.renames op }
{
    RENAMINGS[op as usize]
}

fn result_renaming(alloc: Global, inst: &Inst) -> Result<Definition, Exhausted>
    ensures { IfOk result (λ def. def ≡ renamed (cond (spec.renames inst.now.op) (map value_of inst.now.operands) [])) }
{
    let operands = if renames(inst.op) {
        operand_values(alloc, inst.operands.as_slice())?
    } else {
        ShortList::new(alloc)
    };
    Ok(Definition {
        origin: Origin::Plain,
        operands,
    })
}

/// Adds what the results of an instruction are other names of.
fn add_results(alloc: Global, inst: &Inst, defs: &mut List<Definition>) -> Result<(), Exhausted>
    ensures { OnOk result (defs.new ≡ defs.old ++ result_renamings inst.now) }
{
    for _ in 0..inst.results.len() {
        defs.push(result_renaming(alloc, inst)?)?;
    }
    Ok(())
}

/// The operand of the switch that goes to a block by its default.
pub(crate) fn operand_by_default(switched: Option<Switched>) -> Option<ValueId>
    ensures { option_to_list result ≡ default_operand switched }
{
    match switched {
        Some(switched) => {
            if switched.is_default {
                Some(switched.operand)
            } else {
                None
            }
        }
        None => None,
    }
}

fn arg_renaming(alloc: Global, switched: Option<Switched>) -> Result<Definition, Exhausted>
    ensures { IfOk result (λ def. def ≡ renamed (default_operand switched)) }
{
    Ok(Definition {
        origin: Origin::Plain,
        operands: one_or_none(alloc, operand_by_default(switched))?,
    })
}

/// Adds what the arguments of a block are other names of, to which this switch goes.
fn add_args(
    alloc: Global,
    switched: Option<Switched>,
    args: &[BlockArg],
    defs: &mut List<Definition>,
) -> Result<(), Exhausted>
    ensures { OnOk result (defs.new ≡ defs.old ++ map (spec.arg_renaming switched) args.now) }
{
    for _arg in args {
        defs.push(arg_renaming(alloc, switched)?)?;
    }
    Ok(())
}

/// The table of renamings. `switches` has for each block the switch that goes to it.
#[derive(Drop)]
struct RenamingTable<'a> {
    alloc: Global,
    switches: &'a [Option<Switched>],
}

impl<'f> ValueTable<'f> for RenamingTable<'_> {
    type Table = List<Definition>;

    type Row = Definition;

    ghost rows = { λ defs. defs };

    ghost arg_rows = { λ of n. map (spec.arg_renaming (switch_at of.switches.now n)) };

    ghost result_rows = { λ of. result_renamings };

    fn add_args(
        &self,
        defs: &mut List<Definition>,
        number: usize,
        args: &'f [BlockArg],
    ) -> Result<(), Exhausted> {
        add_args(self.alloc, switch_of(self.switches, number), args, defs)
    }

    fn add_results(&self, defs: &mut List<Definition>, inst: &'f Inst) -> Result<(), Exhausted> {
        add_results(self.alloc, inst, defs)
    }
}

/// The values that each value of the function is another name of, by the values' numbers: as operands of definitions
/// whose origins say nothing. `switches` has for each block the switch that goes to it. Fails where memory runs out.
pub fn renamings(
    alloc: Global,
    f: &Function,
    switches: &[Option<Switched>],
) -> Result<List<Definition>, Exhausted>
    requires { AreSwitches f.now switches.now }
    ensures { IfOk result (λ defs. defs ≡ renamings_of f.now) }
{
    let mut defs = List::with_capacity(alloc, room_for_values(f))?;
    add_values(&RenamingTable { alloc, switches }, &mut defs, f)?;
    Ok(defs)
}
