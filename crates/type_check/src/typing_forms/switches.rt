//! Whether a `switch_enum` names the cases of its enum, and goes to blocks of their own that take the payloads.

ghost use Rattle.std.specs.Prelude.{◌≡◌, ◌<◌, Some, length};
ghost use Rattle.std.specs.List.{list_all};
ghost use Rattle.numbered_form.specs.inner.Limits.{IsDeclInLimits};
ghost use Rattle.numbered_form.specs.Lists.{Each};
ghost use Rattle.numbered_form.specs.Numbering.{IsEdgeInRange, values_of};
ghost use Rattle.sil_types.specs.Typing.SwitchRules as rules;
ghost use Rattle.type_check.specs.TypingForms.inner.Incoming.{AreIncoming};

use crate::typing_forms::payloads::{fit_cases, fit_defaults};
use crate::typing_forms::switch_cases::{are_of_enum, has_each_case_once};
use instruction_table::Op;
use sil_ast::{Edge, Function, Inst, TypeName};
use sil_types::{TypeTable, written};

/// Whether a `switch_enum` repeats a case, names one of another enum, or leaves one out without a default; or a block that it
/// goes to has another edge to it, or arguments that aren't the case's payload. `counts` is what `count_incoming` makes.
pub fn has_wrong_cases(table: &TypeTable, f: &Function, counts: &[u8], inst: &Inst) -> bool
    requires members { Each IsDeclInLimits table.now.decls }
    requires counted { AreIncoming f.now counts.now }
    requires edges { Each (IsEdgeInRange (length (values_of f.now.blocks)) (length f.now.blocks)) inst.now.edges }
    ensures { result ≡ rules.has_wrong_cases table.now f.now inst.now }
{
    match inst.op {
        Op::SwitchEnum => match written(inst, 0) {
            Some(ty) => switches_wrongly(table, f, counts, inst.edges.as_slice(), ty),
            None => true,
        },
        _ => false,
    }
}

fn switches_wrongly(
    table: &TypeTable,
    f: &Function,
    counts: &[u8],
    edges: &[Edge],
    ty: &TypeName,
) -> bool
    requires members { Each IsDeclInLimits table.now.decls }
    requires counted { AreIncoming f.now counts.now }
    requires edges { Each (IsEdgeInRange (length (values_of f.now.blocks)) (length f.now.blocks)) edges.now }
    ensures { result ≡ rules.switches_wrongly table.now f.now edges.now (Some ty.now) }
{
    !are_of_enum(table, ty, edges)
        || !has_each_case_once(table, ty, edges)
        || !are_alone(f, counts, edges)
        || !fit_cases(table, f, ty, edges)
        || !fit_defaults(f, ty, edges)
}

/// Whether each edge is the only one of the function to its block.
fn are_alone(f: &Function, counts: &[u8], edges: &[Edge]) -> bool
    requires counted { AreIncoming f.now counts.now }
    requires edges { Each (IsEdgeInRange (length (values_of f.now.blocks)) (length f.now.blocks)) edges.now }
    ensures { result ≡ list_all (rules.is_alone f.now) edges.now }
{
    for edge in edges {
        if !is_alone(f, counts, edge) {
            return false;
        }
    }
    true
}

fn is_alone(f: &Function, counts: &[u8], edge: &Edge) -> bool
    requires counted { AreIncoming f.now counts.now }
    requires edge { edge.now.block.0 < length f.now.blocks }
    ensures { result ≡ rules.is_alone f.now edge.now }
{
    counts[edge.block.0 as usize] == 1
}
