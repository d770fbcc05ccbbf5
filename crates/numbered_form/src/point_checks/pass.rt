//! The first fault of a function, by one pass over its points.

ghost use Rattle.std.specs.Prelude.{◌≡◌, ◌<◌, ◌^◌, IfOk, None, Some, length, slice_get};
ghost use Rattle.numbered_form.specs.PointChecks.inner.Faults.{block_faults, faults_of, least, numbered};
ghost use Rattle.numbered_form.specs.PointChecks.inner.Numbered.{IsOfNumberedModule};

use crate::point_checks::check::PointCheck;
use crate::point_checks::fault::PointFault;
use sil_ast::{Block, BlockId, Boxed, Exhausted, Function, Inst, PointId};

/// The first of what was found and of the faults of a block's instructions, its terminator left out.
fn add_insts<C: PointCheck>(
    check: &C,
    room: &mut C::Room,
    f: &Function,
    block: BlockId,
    insts: &[Boxed<Inst>],
    mut found: Option<PointFault>,
) -> Result<Option<PointFault>, Exhausted>
    requires fits { C.fits check.now f.now }
    requires short { length insts.now < 2 ^ 32 }
    ensures { IfOk result (λ r. r ≡ least found (numbered (C.inst_faults check.now f.now block.0) 0 insts.now)) }
{
    let mut index = 0;
    for inst in insts {
        found = check.add_inst(room, f, PointId { block, index }, inst.get(), found)?;
        index += 1;
    }
    Ok(found)
}

/// The first of what was found and of the faults of a block.
fn add_block<C: PointCheck>(
    check: &C,
    room: &mut C::Room,
    f: &Function,
    number: BlockId,
    block: &Block,
    found: Option<PointFault>,
) -> Result<Option<PointFault>, Exhausted>
    requires fits { C.fits check.now f.now }
    requires block { slice_get f.now.blocks number.0 ≡ Some block.now }
    requires short { length block.now.insts < 2 ^ 32 }
    ensures { IfOk result (λ r. r ≡ least found (block_faults (C.args_faults check.now f.now) (C.inst_faults check.now f.now) number.0 block.now)) }
{
    let found = check.add_args(f, number, block, found);
    let found = add_insts(check, room, f, number, block.insts.as_slice(), found)?;
    let point = PointId {
        block: number,
        index: block.insts.len() as u32,
    };
    check.add_inst(room, f, point, &block.terminator, found)
}

/// The first of all faults that the check finds in the function: by value, then by rule, then by point.
pub fn least_fault<C: PointCheck>(
    check: &C,
    room: &mut C::Room,
    f: &Function,
) -> Result<Option<PointFault>, Exhausted>
    requires fits { C.fits check.now f.now }
    requires of_module { IsOfNumberedModule f.now }
    ensures { IfOk result (λ r. r ≡ least None (faults_of (C.args_faults check.now f.now) (C.inst_faults check.now f.now) f.now)) }
{
    let mut found = None;
    for (number, block) in f.blocks.as_slice().iter().enumerate() {
        found = add_block(check, room, f, BlockId(number as u32), block, found)?;
    }
    Ok(found)
}
