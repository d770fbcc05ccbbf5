//! 305 at a `switch_enum`: its default lacks the argument that is due.

ghost use Rattle.std.specs.Prelude.{◌≡◌};
ghost use Rattle.std.specs.List.{list_any};
ghost use Rattle.numbered_form.specs.PointChecks.inner.Faults.{least};
ghost use Rattle.ownership_kinds.specs.inner.Faults.{lacking_faults};
ghost use Rattle.ownership_kinds.specs.inner.Known.{kind_told};
ghost use Rattle.ownership_kinds.specs.Statics as statics;

use crate::kinds::{is_guaranteed, is_owned};
use instruction_table::{Ending, ending_of};
use numbered_form::{PointFault, lesser};
use ownership_kinds_chains::{Facts, kind_of};
use sil_ast::{Edge, Function, Inst, PointId};
use sil_rules::Rule;
use sil_types_declarations::Kind;

fn needs_argument(kind: Option<Kind>) -> bool
    ensures { result ≡ statics.needs_argument kind }
{
    is_owned(kind) || is_guaranteed(kind)
}

fn is_lacking_default(f: &Function, edge: &Edge) -> bool
    ensures { result ≡ statics.is_lacking_default f.now edge.now }
{
    if edge.case_of.is_some() {
        return false;
    }
    match f.blocks.get(edge.block.0 as usize) {
        None => true,
        Some(block) => block.args.len() == 0,
    }
}

fn any_lacking(f: &Function, edges: &[Edge]) -> bool
    ensures { result ≡ list_any (statics.is_lacking_default f.now) edges.now }
{
    for edge in edges {
        if is_lacking_default(f, edge) {
            return true;
        }
    }
    false
}

/// Whether the instruction is a switch whose default's block has no argument.
fn lacks_argument(f: &Function, inst: &Inst) -> bool
    ensures { result ≡ statics.lacks_argument f.now inst.now }
{
    match ending_of(inst.op) {
        Ending::Cases => any_lacking(f, inst.edges.as_slice()),
        Ending::Inside
        | Ending::OneBranch
        | Ending::TwoBranches
        | Ending::Return
        | Ending::Unreachable => false,
    }
}

/// The first of what was found and of this fault of the instruction.
pub(crate) fn add_lacking(
    facts: &[Option<Facts>],
    f: &Function,
    point: PointId,
    inst: &Inst,
    found: Option<PointFault>,
) -> Option<PointFault>
    ensures { result ≡ least found (lacking_faults (kind_told facts.now) f.now point.block.0 point.index inst.now) }
{
    let Some(operand) = inst.operands.get(0) else {
        return found;
    };
    if lacks_argument(f, inst) && needs_argument(kind_of(facts, operand.value)) {
        return lesser(
            found,
            PointFault {
                rule: Rule::ArgumentKind,
                subject: operand.value,
                point,
            },
        );
    }
    found
}
