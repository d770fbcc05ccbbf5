//! Functions with rewritten blocks.

ghost use Rattle.std.specs.Prelude.{◌≡◌, ◌<◌, length, map, slice_get, OnOk, IsSomeAnd};
ghost use Rattle.copy_pairing_model.specs.Rewritten.{lent, lent_block, moved};

use crate::copy_rewriting::blocks::{lend_block, move_in_block};
use sil_ast::{Block, Exhausted, Function, List, PointId, ValueId};
use std::alloc::Global;
use std::mem;

fn lend_blocks(alloc: Global, blocks: &mut Vec<Block>, value: ValueId) -> Result<(), Exhausted>
    ensures { OnOk result (blocks.new.items ≡ map (lent_block value) blocks.old.items) }
{
    for b in 0..blocks.len() {
        lend_block(alloc, &mut blocks[b], value)?;
    }
    Ok(())
}

/// The function where the value becomes a borrow. Where memory runs out, blocks are lost.
pub(crate) fn lend_in(alloc: Global, f: &mut Function, value: ValueId) -> Result<(), Exhausted>
    ensures { OnOk result (f.new ≡ lent value f.old) }
{
    let mut blocks = mem::replace(&mut f.blocks, List::new(alloc)).into_vec();
    lend_blocks(alloc, &mut blocks, value)?;
    f.blocks = List::from_vec(blocks);
    Ok(())
}

/// The function where the copy at the point becomes a move, and the later instruction of its block goes. Where memory runs out, blocks are lost.
pub(crate) fn move_in(
    alloc: Global,
    f: &mut Function,
    p: PointId,
    last: usize,
) -> Result<(), Exhausted>
    requires behind { p.index < last }
    requires there { IsSomeAnd (slice_get f.old.blocks p.block.0) (λ block. last < length block.insts) }
    ensures { OnOk result (f.new ≡ moved p last f.old) }
{
    let mut blocks = mem::replace(&mut f.blocks, List::new(alloc)).into_vec();
    move_in_block(
        alloc,
        &mut blocks[p.block.0 as usize],
        p.index as usize,
        last,
    )?;
    f.blocks = List::from_vec(blocks);
    Ok(())
}
