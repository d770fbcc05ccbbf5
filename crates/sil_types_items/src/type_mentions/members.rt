//! The members that instructions name.

ghost use Rattle.std.specs.Prelude.{◌≡◌};
ghost use Rattle.std.specs.List.{flat_map, list_any};
ghost use Rattle.std.specs.Option.{option_to_list};
ghost use Rattle.sil_types_declarations.specs.TypeDefinitions.Mentions.{block_members, edge_members, function_members, inst_members};

use crate::type_mentions::tests::MemberTest;
use sil_ast::{Block, Boxed, Edge, Function, Inst, Member};

/// Whether the test holds of a member that an instruction of the function names.
pub fn any_member_in_function<T: MemberTest>(test: &T, function: &Function) -> bool
    ensures { result ≡ list_any (T.fails test.now) (function_members function.now) }
{
    for block in function.blocks.as_slice() {
        if any_in_block(test, block) {
            return true;
        }
    }
    false
}

fn any_in_block<T: MemberTest>(test: &T, block: &Block) -> bool
    ensures { result ≡ list_any (T.fails test.now) (block_members block.now) }
{
    any_in_insts(test, block.insts.as_slice()) || any_in_inst(test, &block.terminator)
}

fn any_in_insts<T: MemberTest>(test: &T, insts: &[Boxed<Inst>]) -> bool
    ensures { result ≡ list_any (T.fails test.now) (flat_map inst_members insts.now) }
{
    for inst in insts {
        if any_in_inst(test, inst.get()) {
            return true;
        }
    }
    false
}

fn any_in_inst<T: MemberTest>(test: &T, inst: &Inst) -> bool
    ensures { result ≡ list_any (T.fails test.now) (inst_members inst.now) }
{
    is_if_there(test, &inst.member) || any_in_edges(test, inst.edges.as_slice())
}

fn is_if_there<T: MemberTest>(test: &T, member: &Option<Boxed<Member>>) -> bool
    ensures { result ≡ list_any (T.fails test.now) (option_to_list member.now) }
{
    match member {
        Some(member) => test.of_member(member.get()),
        None => false,
    }
}

fn any_in_edges<T: MemberTest>(test: &T, edges: &[Edge]) -> bool
    ensures { result ≡ list_any (T.fails test.now) (flat_map edge_members edges.now) }
{
    for edge in edges {
        if is_if_there(test, &edge.case_of) {
            return true;
        }
    }
    false
}
