//! Blocks with rewritten instructions.

ghost use Rattle.std.specs.Prelude.{◌≡◌, ◌<◌, length, map, remove, OnOk};
ghost use Rattle.instruction_table.specs.declared.op.Op.TheVariants as op;
ghost use Rattle.copy_pairing_model.specs.Rewritten.{changed_at, lent_block, lent_inst, moved_block, with_op};

use crate::copy_rewriting::insts::{lend_inst, put_op};
use instruction_table::Op;
use sil_ast::{Block, Boxed, Exhausted, Inst, List, ValueId};
use std::alloc::Global;
use std::mem;

fn lend_insts(alloc: Global, insts: &mut Vec<Boxed<Inst>>, value: ValueId) -> Result<(), Exhausted>
    ensures { OnOk result (insts.new.items ≡ map (lent_inst value) insts.old.items) }
{
    for k in 0..insts.len() {
        lend_inst(alloc, &mut insts[k], value)?;
    }
    Ok(())
}

/// The block where the value becomes a borrow. Where memory runs out, instructions are lost.
pub(crate) fn lend_block(alloc: Global, block: &mut Block, value: ValueId) -> Result<(), Exhausted>
    ensures { OnOk result (block.new ≡ lent_block value block.old) }
{
    let mut insts = mem::replace(&mut block.insts, List::new(alloc)).into_vec();
    lend_insts(alloc, &mut insts, value)?;
    block.insts = List::from_vec(insts);
    Ok(())
}

fn move_insts(
    alloc: Global,
    insts: &mut Vec<Boxed<Inst>>,
    index: usize,
    last: usize,
) -> Result<(), Exhausted>
    requires index { index < length insts.old.items }
    requires last { last < length insts.old.items }
    ensures { OnOk result (insts.new.items ≡ remove (changed_at index (with_op op.MoveValue) insts.old.items) last) }
{
    put_op(alloc, &mut insts[index], Op::MoveValue)?;
    let _gone = insts.remove(last);
    Ok(())
}

/// The block where the copy at an index becomes a move, and the instruction at another one goes. Where memory runs out, instructions are lost.
pub(crate) fn move_in_block(
    alloc: Global,
    block: &mut Block,
    index: usize,
    last: usize,
) -> Result<(), Exhausted>
    requires index { index < length block.old.insts }
    requires last { last < length block.old.insts }
    ensures { OnOk result (block.new ≡ moved_block index last block.old) }
{
    let mut insts = mem::replace(&mut block.insts, List::new(alloc)).into_vec();
    move_insts(alloc, &mut insts, index, last)?;
    block.insts = List::from_vec(insts);
    Ok(())
}
