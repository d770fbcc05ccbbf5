//! How many leaves types have together.

ghost use Rattle.std.specs.Prelude.{◌≡◌, ◌≤◌, map, sum};
ghost use Rattle.sil_rules.specs.declared.limits.TheConstants.{LEAVES};
ghost use Rattle.sil_types.specs.Typing.RowTypes.{all_written};
ghost use Rattle.sil_types_declarations.specs.TypeDefinitions.Measures.{leaves_of};
ghost use Rattle.sil_types_declarations.specs.TypeDefinitions.Mentions.{direct_types};

use sil_ast::{Given, Operand};
use sil_types::TypeTable;

/// Of the types that are written at some operands.
pub(crate) fn leaves_written(table: &TypeTable, operands: &[Operand]) -> u32
    requires { sum (map (leaves_of table.now) (all_written operands.now)) ≤ LEAVES }
    ensures { result ≡ sum (map (leaves_of table.now) (all_written operands.now)) }
{
    let mut leaves = 0;
    for operand in operands {
        if let Some(ty) = &operand.ty {
            leaves += table.leaves(ty);
        }
    }
    leaves
}

/// Of the direct results.
pub(crate) fn leaves_given(table: &TypeTable, results: &[Given]) -> u32
    requires { sum (map (leaves_of table.now) (direct_types results.now)) ≤ LEAVES }
    ensures { result ≡ sum (map (leaves_of table.now) (direct_types results.now)) }
{
    let mut leaves = 0;
    for given in results {
        if !given.out {
            leaves += table.leaves(&given.ty);
        }
    }
    leaves
}
