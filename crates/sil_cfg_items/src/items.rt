//! What an item takes, and the values that it defines.

ghost use Rattle.std.specs.Prelude.{◌≡◌, ◌++◌, map, OnOk};
ghost use Rattle.std.specs.Option.{option_copied};
ghost use Rattle.sil_cfg_items.specs.Items.{arg_value, item_defined, item_taken, taken_along_in, taken_in};

use crate::parts::{item_arguments, item_edge, item_inst, item_results};
use crate::taken::{Taken, add_taken_along, add_taken_by};
use sil_ast::{BlockArg, Edge, Exhausted, Function, Inst, ValueId};
use sil_cfg::Item;

fn add_taken_in(taken: &mut Vec<Taken>, inst: Option<&Inst>) -> Result<(), Exhausted>
    ensures { OnOk result (taken.new.items ≡ taken.old.items ++ taken_in (option_copied inst.entry)) }
{
    match inst {
        None => Ok(()),
        Some(inst) => add_taken_by(taken, inst),
    }
}

fn add_taken_along_in(taken: &mut Vec<Taken>, edge: Option<&Edge>) -> Result<(), Exhausted>
    ensures { OnOk result (taken.new.items ≡ taken.old.items ++ taken_along_in (option_copied edge.entry)) }
{
    match edge {
        None => Ok(()),
        Some(edge) => add_taken_along(taken, edge),
    }
}

/// Adds what an item takes: the operands of its instruction, and then what its edge hands over.
pub fn add_item_taken(taken: &mut Vec<Taken>, f: &Function, item: Item) -> Result<(), Exhausted>
    ensures { OnOk result (taken.new.items ≡ taken.old.items ++ item_taken f.now item) }
{
    add_taken_in(taken, item_inst(f, item))?;
    add_taken_along_in(taken, item_edge(f, item))
}

fn add_results(defined: &mut Vec<ValueId>, results: &[ValueId]) -> Result<(), Exhausted>
    ensures { OnOk result (defined.new.items ≡ defined.old.items ++ results.now) }
{
    for value in results {
        defined.push(*value)?;
    }
    Ok(())
}

fn add_args(defined: &mut Vec<ValueId>, args: &[BlockArg]) -> Result<(), Exhausted>
    ensures { OnOk result (defined.new.items ≡ defined.old.items ++ map arg_value args.now) }
{
    for arg in args {
        defined.push(arg.value)?;
    }
    Ok(())
}

/// Adds the values that an item defines: the results of its instruction, or the arguments that begin with it.
pub fn add_item_defined(
    defined: &mut Vec<ValueId>,
    f: &Function,
    item: Item,
) -> Result<(), Exhausted>
    ensures { OnOk result (defined.new.items ≡ defined.old.items ++ item_defined f.now item) }
{
    add_results(defined, item_results(f, item))?;
    add_args(defined, item_arguments(f, item))
}
