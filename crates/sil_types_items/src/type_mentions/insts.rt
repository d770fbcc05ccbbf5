//! The types in instructions.

ghost use Rattle.std.specs.Prelude.{◌≡◌};
ghost use Rattle.std.specs.List.{flat_map, list_any};
ghost use Rattle.std.specs.Option.{option_to_list};
ghost use Rattle.sil_types_declarations.specs.TypeDefinitions.Mentions as spec;
ghost use Rattle.sil_types_declarations.specs.TypeDefinitions.Mentions.{in_edge, in_inst, in_operand, in_signature, in_tuple, standing_in};

use crate::type_mentions::decls::{any_if_there, any_in_signature};
use crate::type_mentions::tests::MentionTest;
use instruction_table::{Op, makes_tuple, may_have_storage};
use sil_ast::{Boxed, Edge, Inst, Operand, Signature};
use sil_types_declarations::Standing;

pub(crate) fn any_in_inst<T: MentionTest>(test: &T, inst: &Inst) -> bool
    ensures { result ≡ list_any (T.holds test.now) (in_inst inst.now) }
{
    any_if_there(test, standing_in(inst.op), &inst.ty)
        || any_in_given_signature(test, &inst.signature)
        || any_in_operands(test, inst.operands.as_slice())
        || any_in_edges(test, inst.edges.as_slice())
        || any_in_tuple(test, inst)
}

fn standing_in(op: Op) -> Standing
    ensures { result ≡ spec.standing_in op }
{
    if may_have_storage(op) {
        Standing::Slot
    } else {
        Standing::Object
    }
}

fn any_in_given_signature<T: MentionTest>(test: &T, signature: &Option<Boxed<Signature>>) -> bool
    ensures { result ≡ list_any (T.holds test.now) (flat_map in_signature (option_to_list signature.now)) }
{
    match signature {
        Some(signature) => any_in_signature(test, signature.get()),
        None => false,
    }
}

fn any_in_operands<T: MentionTest>(test: &T, operands: &[Operand]) -> bool
    ensures { result ≡ list_any (T.holds test.now) (flat_map in_operand operands.now) }
{
    for operand in operands {
        if any_if_there(test, Standing::Value, &operand.ty) {
            return true;
        }
    }
    false
}

fn any_in_edges<T: MentionTest>(test: &T, edges: &[Edge]) -> bool
    ensures { result ≡ list_any (T.holds test.now) (flat_map in_edge edges.now) }
{
    for edge in edges {
        if any_in_operands(test, edge.args.as_slice()) {
            return true;
        }
    }
    false
}

fn any_in_tuple<T: MentionTest>(test: &T, inst: &Inst) -> bool
    ensures { result ≡ list_any (T.holds test.now) (in_tuple inst.now) }
{
    makes_tuple(inst.op) && test.of_operands(inst.operands.as_slice())
}
