//! What stands at a point.

ghost use Rattle.std.specs.Prelude.{◌≡◌, Some};
ghost use Rattle.std.specs.Option.{option_copied};
ghost use Rattle.numbered_form.specs.PointChecks.Points.{IsAt};

use sil_ast::{Function, Inst, PointId};

/// The instruction or terminator at a point.
pub fn inst_at(f: &Function, point: PointId) -> Option<&Inst>
    ensures { (i : Inst) → IsAt f.now point.block.0 point.index i → option_copied result ≡ Some i }
{
    let block = f.blocks.get(point.block.0 as usize)?;
    match block.inst(point.index as usize) {
        Some(inst) => Some(inst),
        None => Some(&block.terminator),
    }
}
