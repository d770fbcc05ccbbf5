//! Calls, made ready to run.

ghost use Rattle.std.specs.Prelude.{◌≡◌, ◌≤◌, IfOk, drop, false, length, true};
ghost use Rattle.holder_model.specs.Effects.{effect_of};
ghost use Rattle.holder_model.specs.Frames.{has_any};
ghost use Rattle.holder_model.specs.declared.row_effect.RowEffect.TheVariants as row;
ghost use Rattle.sil_ast.specs.declared.function.Function.{Function};
ghost use Rattle.count_machine_ready.specs.inner.Bodies.{Calls, HasRow, IsBody, IsReadyOp};

use crate::body::Body;
use crate::parts::{first_result, locals_of, operand, values_of};
use count_machine_layouts::{Kept, addresses_carried, values_carried};
use count_machine_model::ReadyOp;
use sil_ast::{Exhausted, FuncId, Function, Inst, Operand};
use std::alloc::Global;

/// The operands behind the first.
fn args_of(inst: &Inst) -> &[Operand]
    requires { 1 ≤ length inst.now.operands }
    ensures { result.now ≡ drop 1 inst.now.operands }
{
    &inst.operands.as_slice()[1..]
}

/// A call of a function with a body.
fn call_within(
    alloc: Global,
    body: &Body<'_>,
    inst: &Inst,
    function: FuncId,
    callee: &Function,
) -> Result<ReadyOp, Exhausted>
    requires body { IsBody body.now }
    requires does { effect_of inst.now.op ≡ row.CallsFunction }
    requires call { Calls body.now inst.now function callee.now }
    requires bodied { has_any callee.now.blocks ≡ true }
    ensures { IfOk result (IsReadyOp body.now inst.now) }
{
    let from = body.layout;
    let to = &body.layouts[function.0 as usize];
    let operands = args_of(inst);
    let args = callee.args_of(0);
    let addresses = addresses_carried(alloc, from, to, operands, args)?;
    let values = values_carried(alloc, from, to, operands, args)?;
    Ok(ReadyOp::Call {
        function,
        operands: values_of(alloc, inst.operands.as_slice())?,
        values,
        addresses,
        to: body.local(first_result(inst)),
    })
}

/// A call of a function without a body.
fn call_out(
    alloc: Global,
    body: &Body<'_>,
    inst: &Inst,
    function: FuncId,
) -> Result<ReadyOp, Exhausted>
    requires body { IsBody body.now }
    requires does { effect_of inst.now.op ≡ row.CallsFunction }
    requires call { (callee : Function) × Calls body.now inst.now function callee × (has_any callee.blocks ≡ false) }
    ensures { IfOk result (IsReadyOp body.now inst.now) }
{
    let args = locals_of(alloc, body, args_of(inst))?;
    Ok(ReadyOp::CallOut {
        function,
        operands: values_of(alloc, inst.operands.as_slice())?,
        args,
        to: body.local(first_result(inst)),
    })
}

/// A call.
pub(crate) fn call(alloc: Global, body: &Body<'_>, inst: &Inst) -> Result<ReadyOp, Exhausted>
    requires body { IsBody body.now }
    requires has { HasRow body.now inst.now row.CallsFunction }
    ensures { IfOk result (IsReadyOp body.now inst.now) }
{
    match body.kept(operand(inst, 0)) {
        Kept::Function(function) => {
            let callee = &body.m.functions.as_slice()[function.0 as usize];
            if callee.blocks.is_empty() {
                call_out(alloc, body, inst, function)
            } else {
                call_within(alloc, body, inst, function, callee)
            }
        }
        Kept::Leaves(_) => unreachable!(),
        Kept::Address { .. } => unreachable!(),
        Kept::Nothing => unreachable!(),
    }
}
