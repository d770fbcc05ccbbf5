//! How a run ended.

ghost use Rattle.std.specs.Prelude.{◌≡◌, ℕ, IfOk, slice_get};
ghost use Rattle.std.specs.Option.{option_copied};
ghost use Rattle.holder_model.specs.RunTyping.Forms.{given_shape};
ghost use Rattle.holder_model.specs.RunTyping.Runnable.{IsRunnable};
ghost use Rattle.sil_types_declarations.specs.TypeDefinitions.Declarations.{declarations_of};
ghost use Rattle.count_machine.specs.inner.Stopped.{IsToldAs, inst_in, text_in};

use crate::low_run::LowEnd;
use crate::value_reading::read_given;
use count_machine_engine::Machine;
use count_machine_model::RunEnd;
use holder_model::Trap;
use sil_ast::{Exhausted, FuncId, Function, Inst, Module, PointId, Text, TryClone};
use sil_types::TypeTable;
use std::alloc::Global;

/// The ending for which the machine's stop stands.
pub(crate) fn ending_of(
    alloc: Global,
    m: &Module,
    table: &TypeTable,
    entry: &Function,
    machine: &Machine,
    stop: RunEnd,
) -> Result<LowEnd, Exhausted>
    requires runnable { IsRunnable m.now }
    requires of_it { table.now ≡ declarations_of m.now }
    requires there { (n : ℕ) × (slice_get m.now.functions n ≡ Some entry.now) }
    ensures { IfOk result (IsToldAs m.now (given_shape (declarations_of m.now) entry.now) machine.now stop) }
{
    match stop {
        RunEnd::Returned { operand } => {
            let value = read_given(alloc, m, table, entry, machine.returned(operand))?;
            Ok(LowEnd::Returned(value))
        }
        RunEnd::CondFail { function, point } => {
            let text = message(alloc, m, function, point)?;
            Ok(LowEnd::Trap(Trap::CondFail(text)))
        }
        RunEnd::Unreachable => Ok(LowEnd::Trap(Trap::Unreachable)),
        RunEnd::Unowned => Ok(LowEnd::Trap(Trap::Unowned)),
        RunEnd::Escaped => Ok(LowEnd::Trap(Trap::Escaped)),
        RunEnd::Depth => Ok(LowEnd::Trap(Trap::Depth)),
        RunEnd::OutOfTurns => Ok(LowEnd::OutOfTurns),
        RunEnd::Fault { fault } => Ok(LowEnd::Fault(fault)),
    }
}

/// The message of the `cond_fail` at a point.
fn message(alloc: Global, m: &Module, function: FuncId, point: PointId) -> Result<Text, Exhausted>
    ensures { IfOk result (λ text. text ≡ text_in (inst_in m.now function point)) }
{
    match inst_at(m, function, point) {
        Some(inst) => match &inst.text {
            Some(text) => text.get().try_clone(alloc),
            None => Ok(Text::new()),
        },
        None => Ok(Text::new()),
    }
}

/// The instruction at a point of a function.
fn inst_at(m: &Module, function: FuncId, point: PointId) -> Option<&Inst>
    ensures { option_copied result ≡ inst_in m.now function point }
{
    let function = m.functions.get(function.0 as usize)?;
    let block = function.blocks.get(point.block.0 as usize)?;
    block.inst(point.index as usize)
}
