//! How much room a table by value takes.

use sil_ast::Function;

/// About how many values the function has: one for each argument of a block and each instruction.
/// It is for the memory of tables by value alone, and nothing rests on it.
pub fn room_for_values(f: &Function) -> usize {
    let mut count: usize = 0;
    for block in f.blocks.as_slice() {
        count = count
            .saturating_add(block.args.len())
            .saturating_add(block.insts.len());
    }
    count
}
