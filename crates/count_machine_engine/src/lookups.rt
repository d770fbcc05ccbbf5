//! Blocks and instructions of ready code, by numbers.

ghost use Rattle.std.specs.Prelude.{◌≡◌};
ghost use Rattle.std.specs.Option.{option_copied};
ghost use Rattle.count_machine_model.specs.MachineSteps.Ends.{awaited, block_at, op_at};

use count_machine_model::{Frame, Local, ReadyBlock, ReadyModule, ReadyOp};
use sil_ast::FuncId;

/// The block of a function.
pub(crate) fn block_at(ready: &ReadyModule, function: FuncId, block: u32) -> Option<&ReadyBlock>
    ensures { option_copied result ≡ block_at ready.now function block }
{
    let f = ready.functions.get(function.0 as usize)?;
    f.blocks.get(block as usize)
}

/// The instruction before which a frame stands.
fn op_at<'a>(ready: &'a ReadyModule, frame: &Frame) -> Option<&'a ReadyOp>
    ensures { option_copied result ≡ op_at ready.now frame.now }
{
    let block = block_at(ready, frame.function, frame.block)?;
    block.ops.get(frame.index as usize)
}

/// Where the call before which a frame stands puts what the callee returns.
pub(crate) fn awaited(ready: &ReadyModule, frame: &Frame) -> Option<Local>
    ensures { result ≡ awaited ready.now frame.now }
{
    match op_at(ready, frame)? {
        ReadyOp::Call { to, .. } => Some(*to),
        _ => None,
    }
}
