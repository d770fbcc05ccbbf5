//! What edges bring to blocks.

ghost use Rattle.std.specs.Prelude.{◌≡◌, map};
ghost use Rattle.std.specs.List.{list_all, list_any};
ghost use Rattle.sil_types.specs.Typing.EdgeRules as rules;
ghost use Rattle.sil_types.specs.Typing.RowTypes.{all_written};
ghost use Rattle.sil_types.specs.Typing.Same.{are_same_types};
ghost use Rattle.sil_types.specs.Typing.Values.{arg_type};

use instruction_table::Op;
use sil_ast::{BlockArg, Edge, Function, Inst, Operand};
use sil_types::same_type;

/// Whether an edge of `br` or `cond_br` has other arguments than its block, in number or type.
#[tactic(auto, unfolding(sil_types::specs::Typing::EdgeRules::has_wrong_edge_arguments))]
pub fn has_wrong_edge_arguments(f: &Function, inst: &Inst) -> bool
    ensures { result ≡ rules.has_wrong_edge_arguments f.now inst.now }
{
    match inst.op {
        Op::Br | Op::CondBr => !have_block_types(f, inst.edges.as_slice()),
        _ => false,
    }
}

fn have_block_types(f: &Function, edges: &[Edge]) -> bool
    ensures { result ≡ list_all (rules.has_block_types f.now) edges.now }
{
    for edge in edges {
        if !has_block_types(f, edge) {
            return false;
        }
    }
    true
}

fn has_block_types(f: &Function, edge: &Edge) -> bool
    ensures { result ≡ rules.has_block_types f.now edge.now }
{
    have_types_of(edge.args.as_slice(), f.args_of(edge.block.0 as usize))
}

/// Whether the types written at the operands are those of the arguments, in order.
fn have_types_of(operands: &[Operand], args: &[BlockArg]) -> bool
    ensures { result ≡ are_same_types (all_written operands.now) (map arg_type args.now) }
{
    let mut rest = args;
    for operand in operands {
        if let Some(ty) = &operand.ty {
            match rest {
                [] => return false,
                [arg, others @ ..] => {
                    if !same_type(ty, &arg.ty) {
                        return false;
                    }
                    rest = others;
                }
            }
        }
    }
    rest.is_empty()
}

/// Whether an edge goes to the entry.
#[tactic(auto, unfolding(sil_types::specs::Typing::EdgeRules::goes_to_entry))]
pub fn goes_to_entry(inst: &Inst) -> bool
    ensures { result ≡ rules.goes_to_entry inst.now }
{
    any_to_entry(inst.edges.as_slice())
}

fn any_to_entry(edges: &[Edge]) -> bool
    ensures { result ≡ list_any rules.is_to_entry edges.now }
{
    for edge in edges {
        if edge.block.0 == 0 {
            return true;
        }
    }
    false
}
