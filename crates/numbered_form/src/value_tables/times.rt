//! One row for several values.

ghost use Rattle.std.specs.Prelude.{◌≡◌, ◌++◌, OnOk, replicate};

use sil_ast::Exhausted;

/// Adds a row to the table, once for each of `count` values.
pub fn push_times<T: Copy>(table: &mut Vec<T>, count: usize, row: T) -> Result<(), Exhausted>
    ensures { OnOk result (table.new.items ≡ table.old.items ++ replicate count row) }
{
    for _ in 0..count {
        table.push(row)?;
    }
    Ok(())
}
