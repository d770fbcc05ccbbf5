//! How each value of a function comes by its kind and its bases.

ghost use Rattle.std.specs.Prelude.{◌≡◌, IfOk, map};
ghost use Rattle.ownership_kinds_origins.specs.Origins.{arg_definition, definitions_of, is_zero, result_definitions};
ghost use Rattle.ownership_kinds_origins.specs.inner.Tables.{AreSwitches, switch_at};

use crate::args::add_args;
use crate::results::add_results;
use crate::switched::Switched;
use crate::switching::switch_of;
use numbered_form::{ValueTable, add_values, room_for_values};
use ownership_kinds_chains::Definition;
use sil_ast::{BlockArg, Exhausted, Function, Inst, List};
use sil_types::TypeTable;
use std::alloc::Global;

/// The table of definitions. `switches` has for each block the switch that goes to it.
#[derive(Drop)]
struct DefinitionTable<'a> {
    alloc: Global,
    table: &'a TypeTable,
    switches: &'a [Option<Switched>],
}

impl<'f> ValueTable<'f> for DefinitionTable<'_> {
    type Table = List<Definition>;

    type Row = Definition;

    ghost rows = { λ defs. defs };

    ghost arg_rows = { λ of n. map (arg_definition of.table.now (is_zero n) (switch_at of.switches.now n)) };

    ghost result_rows = { λ of. result_definitions of.table.now };

    fn add_args(
        &self,
        defs: &mut List<Definition>,
        number: usize,
        args: &'f [BlockArg],
    ) -> Result<(), Exhausted> {
        let switched = switch_of(self.switches, number);
        add_args(self.alloc, self.table, number == 0, switched, args, defs)
    }

    fn add_results(&self, defs: &mut List<Definition>, inst: &'f Inst) -> Result<(), Exhausted> {
        add_results(self.alloc, self.table, inst, defs)
    }
}

/// How each value of the function comes by its kind and its bases, by the values' numbers. `switches` has for each block
/// the switch that goes to it. Fails where memory runs out.
pub fn definitions(
    alloc: Global,
    table: &TypeTable,
    f: &Function,
    switches: &[Option<Switched>],
) -> Result<List<Definition>, Exhausted>
    requires { AreSwitches f.now switches.now }
    ensures { IfOk result (λ defs. defs ≡ definitions_of table.now f.now) }
{
    let mut defs = List::with_capacity(alloc, room_for_values(f))?;
    let of = DefinitionTable {
        alloc,
        table,
        switches,
    };
    add_values(&of, &mut defs, f)?;
    Ok(defs)
}
