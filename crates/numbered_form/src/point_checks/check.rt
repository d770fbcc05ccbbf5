//! What is asked at the points of a function.

ghost use Rattle.std.specs.Prelude.{◌≡◌, ℕ, IfOk, List, Some, slice_get};
ghost use Rattle.sil_ast.specs.declared.function.Block.{Block};
ghost use Rattle.sil_ast.specs.declared.function.Function.{Function};
ghost use Rattle.sil_ast.specs.declared.inst.Inst.{Inst};
ghost use Rattle.numbered_form.specs.PointChecks.inner.Faults.{least};
ghost use Rattle.numbered_form.specs.declared.point_checks.fault.PointFault.{PointFault};

use crate::point_checks::fault::PointFault;
use sil_ast::{Block, BlockId, Exhausted, Function, Inst, PointId};

/// A check of a function's points: of the arguments of each block, which stand at its first point, and of each instruction.
pub trait PointCheck {
    /// Memory that the check needs at an instruction. What it holds doesn't matter.
    type Room;

    /// The check is made for the function.
    ghost fits: { Self → Function → Type 0 };

    /// The faults of the arguments of the block with this number.
    ghost args_faults: { Self → Function → ℕ → Block → List PointFault };

    /// The faults of the instruction with this index in the block with this number.
    ghost inst_faults: { Self → Function → ℕ → ℕ → Inst → List PointFault };

    /// The first of what was found and of the faults of a block's arguments.
    fn add_args(
        &self,
        f: &Function,
        number: BlockId,
        block: &Block,
        found: Option<PointFault>,
    ) -> Option<PointFault>
        requires fits { fits self.now f.now }
        requires block { slice_get f.now.blocks number.0 ≡ Some block.now }
        ensures { result ≡ least found (args_faults self.now f.now number.0 block.now) };

    /// The first of what was found and of the faults of the instruction at the point.
    fn add_inst(
        &self,
        room: &mut Self::Room,
        f: &Function,
        point: PointId,
        inst: &Inst,
        found: Option<PointFault>,
    ) -> Result<Option<PointFault>, Exhausted>
        requires { fits self.now f.now }
        ensures { IfOk result (λ r. r ≡ least found (inst_faults self.now f.now point.block.0 point.index inst.now)) };
}
