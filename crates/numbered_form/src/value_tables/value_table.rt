//! The walk that makes a table by value: the arguments of each block, then the results of its instructions, block by block.

ghost use Rattle.std.specs.Prelude.{◌≡◌, ◌++◌, ℕ, List, OnOk};
ghost use Rattle.std.specs.List.{flat_map};
ghost use Rattle.sil_ast.specs.declared.function.BlockArg.{BlockArg};
ghost use Rattle.sil_ast.specs.declared.inst.Inst.{Inst};
ghost use Rattle.numbered_form.specs.ValueTables.ValueRows.{block_rows, value_rows};

use sil_ast::{Block, BlockArg, Boxed, Exhausted, Function, Inst};

/// What a table tells of each value.
pub trait ValueTable<'f> {
    /// The table that grows.
    type Table;

    /// What it tells of one value.
    type Row;

    ghost rows: { Self.Table → List Self.Row };

    ghost arg_rows: { Self → ℕ → List BlockArg → List Self.Row };

    ghost result_rows: { Self → Inst → List Self.Row };

    /// Tells of the arguments of the block with this number.
    fn add_args(
        &self,
        table: &mut Self::Table,
        number: usize,
        args: &'f [BlockArg],
    ) -> Result<(), Exhausted>
        ensures { OnOk result (rows table.new ≡ rows table.old ++ arg_rows self.now number args.now) };

    /// Tells of the results of an instruction.
    fn add_results(&self, table: &mut Self::Table, inst: &'f Inst) -> Result<(), Exhausted>
        ensures { OnOk result (rows table.new ≡ rows table.old ++ result_rows self.now inst.now) };
}

fn add_insts<'f, T: ValueTable<'f>>(
    of: &T,
    table: &mut T::Table,
    insts: &'f [Boxed<Inst>],
) -> Result<(), Exhausted>
    ensures { OnOk result (T.rows table.new ≡ T.rows table.old ++ flat_map (T.result_rows of.now) insts.now) }
{
    for inst in insts {
        of.add_results(table, inst.get())?;
    }
    Ok(())
}

fn add_block<'f, T: ValueTable<'f>>(
    of: &T,
    table: &mut T::Table,
    number: usize,
    block: &'f Block,
) -> Result<(), Exhausted>
    ensures { OnOk result (T.rows table.new ≡ T.rows table.old ++ block_rows (T.arg_rows of.now) (T.result_rows of.now) number block.now) }
{
    of.add_args(table, number, block.args.as_slice())?;
    add_insts(of, table, block.insts.as_slice())?;
    of.add_results(table, &block.terminator)
}

/// Tells of each value of the function, behind what the table tells already.
pub fn add_values<'f, T: ValueTable<'f>>(
    of: &T,
    table: &mut T::Table,
    f: &'f Function,
) -> Result<(), Exhausted>
    ensures { OnOk result (T.rows table.new ≡ T.rows table.old ++ value_rows (T.arg_rows of.now) (T.result_rows of.now) f.now) }
{
    for (number, block) in f.blocks.as_slice().iter().enumerate() {
        add_block(of, table, number, block)?;
    }
    Ok(())
}
