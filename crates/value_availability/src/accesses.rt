//! The table of rule 301: what each item does to which value.

ghost use Rattle.std.specs.Prelude.{◌≡◌, ◌++◌, map, OnOk};
ghost use Rattle.value_availability.specs.Accesses.{accesses_of, begun, defined, used};

use reach_engine_marks::{Entry, ItemTable, Mark};
use sil_ast::{BlockArg, Exhausted, Function, Operand, ValueId};
use sil_cfg::Item;
use sil_cfg_items::{item_arguments, item_handover, item_operands, item_results};
use sil_rules::Rule;

/// An operand needs its value defined.
fn used(operand: &Operand) -> Entry
    ensures { result ≡ used operand.now }
{
    Entry {
        subject: operand.value.0,
        mark: Mark::needs_on(Rule::Undefined),
    }
}

/// A result and an argument define their value.
fn defined(value: ValueId) -> Entry
    ensures { result ≡ defined value }
{
    Entry {
        subject: value.0,
        mark: Mark::turns_on(Rule::Undefined),
    }
}

fn add_operands(entries: &mut Vec<Entry>, operands: &[Operand]) -> Result<(), Exhausted>
    ensures { OnOk result (entries.new.items ≡ entries.old.items ++ map used operands.now) }
{
    for operand in operands {
        entries.push(used(operand))?;
    }
    Ok(())
}

fn add_results(entries: &mut Vec<Entry>, results: &[ValueId]) -> Result<(), Exhausted>
    ensures { OnOk result (entries.new.items ≡ entries.old.items ++ map defined results.now) }
{
    for value in results {
        entries.push(defined(*value))?;
    }
    Ok(())
}

fn add_args(entries: &mut Vec<Entry>, args: &[BlockArg]) -> Result<(), Exhausted>
    ensures { OnOk result (entries.new.items ≡ entries.old.items ++ map begun args.now) }
{
    for arg in args {
        entries.push(defined(arg.value))?;
    }
    Ok(())
}

/// What the items of a function do to its values.
#[derive(Drop)]
pub(crate) struct Accesses<'f> {
    pub f: &'f Function,
}

impl ItemTable for Accesses<'_> {
    type Room = ();

    ghost fits = { λ _. Unit {0} };

    ghost entries_at = { λ t _ item. accesses_of t.f.now item };

    fn add_entries(
        &self,
        _room: &mut (),
        entries: &mut Vec<Entry>,
        _number: usize,
        item: Item,
    ) -> Result<(), Exhausted> {
        add_operands(entries, item_operands(self.f, item))?;
        add_operands(entries, item_handover(self.f, item))?;
        add_results(entries, item_results(self.f, item))?;
        add_args(entries, item_arguments(self.f, item))
    }
}
