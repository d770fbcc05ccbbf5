//! Terminators, made ready to run.

ghost use Rattle.std.specs.Prelude.{◌≡◌, ◌<◌, IfOk, length, slice_get};
ghost use Rattle.sil_ast.specs.declared.inst.Edge.{Edge};
ghost use Rattle.instruction_table.specs.Forms as form;
ghost use Rattle.instruction_table.specs.declared.entries.Ending.TheVariants as ending;
ghost use Rattle.count_machine_model.specs.ReadyCode.ReadyEnds as spec;
ghost use Rattle.count_machine_ready.specs.inner.Bodies.{HasEnd, IsBody, IsReadyEnd, declared};

use crate::body::Body;
use crate::edges::{ready_cases, ready_edge};
use crate::parts::operand;
use count_machine_model::{ReadyEdge, ReadyEnd};
use instruction_table::{Ending, ending_of};
use sil_ast::{Exhausted, Inst};
use sil_types::written;
use std::alloc::Global;

/// The edge with this number.
fn edge_at(alloc: Global, body: &Body<'_>, inst: &Inst, k: usize) -> Result<ReadyEdge, Exhausted>
    requires body { IsBody body.now }
    requires there { k < length inst.now.edges }
    ensures { (e : Edge) → slice_get inst.now.edges k ≡ Some e
        → IfOk result (λ ready. ready ≡ spec.ready_edge (declared body.now) body.now.function.now e) }
{
    ready_edge(alloc, body, &inst.edges.as_slice()[k])
}

fn jump(alloc: Global, body: &Body<'_>, inst: &Inst) -> Result<ReadyEnd, Exhausted>
    requires body { IsBody body.now }
    requires has { HasEnd body.now inst.now ending.OneBranch }
    ensures { IfOk result (IsReadyEnd body.now inst.now) }
{
    Ok(ReadyEnd::Jump {
        edge: edge_at(alloc, body, inst, 0)?,
    })
}

fn branch(alloc: Global, body: &Body<'_>, inst: &Inst) -> Result<ReadyEnd, Exhausted>
    requires body { IsBody body.now }
    requires has { HasEnd body.now inst.now ending.TwoBranches }
    ensures { IfOk result (IsReadyEnd body.now inst.now) }
{
    Ok(ReadyEnd::Branch {
        condition: body.local(operand(inst, 0)),
        set: edge_at(alloc, body, inst, 0)?,
        clear: edge_at(alloc, body, inst, 1)?,
    })
}

fn switch(alloc: Global, body: &Body<'_>, inst: &Inst) -> Result<ReadyEnd, Exhausted>
    requires body { IsBody body.now }
    requires has { HasEnd body.now inst.now ending.Cases }
    ensures { IfOk result (IsReadyEnd body.now inst.now) }
{
    match written(inst, 0) {
        Some(ty) => Ok(ReadyEnd::Switch {
            operand: body.local(operand(inst, 0)),
            cases: ready_cases(alloc, body, ty, inst)?,
        }),
        None => unreachable!(),
    }
}

fn give_back(body: &Body<'_>, inst: &Inst) -> ReadyEnd
    requires body { IsBody body.now }
    requires has { HasEnd body.now inst.now ending.Return }
    ensures { IsReadyEnd body.now inst.now result }
{
    ReadyEnd::Return {
        operand: body.local(operand(inst, 0)),
    }
}

/// A terminator, made ready.
pub(crate) fn ready_end(alloc: Global, body: &Body<'_>, inst: &Inst) -> Result<ReadyEnd, Exhausted>
    requires body { IsBody body.now }
    requires has { HasEnd body.now inst.now (form.ending_of inst.now.op) }
    ensures { IfOk result (IsReadyEnd body.now inst.now) }
{
    match ending_of(inst.op) {
        Ending::OneBranch => jump(alloc, body, inst),
        Ending::TwoBranches => branch(alloc, body, inst),
        Ending::Cases => switch(alloc, body, inst),
        Ending::Return => Ok(give_back(body, inst)),
        Ending::Unreachable => Ok(ReadyEnd::Unreachable),
        Ending::Inside => unreachable!(),
    }
}
