//! The types in functions, and in a whole module.

ghost use Rattle.std.specs.Prelude.{◌≡◌, map};
ghost use Rattle.std.specs.List.{flat_map, list_any};
ghost use Rattle.sil_types_declarations.specs.TypeDefinitions.Mentions.{in_arg, in_block, in_decl, in_function, in_inst, mentions_of};

use crate::type_mentions::decls::{any_in_decl, any_in_signature};
use crate::type_mentions::insts::any_in_inst;
use crate::type_mentions::tests::MentionTest;
use sil_ast::{Block, BlockArg, Boxed, Decl, Function, Inst, Module};
use sil_types_declarations::Standing;

/// Whether the test holds of a type that the module mentions.
pub fn any_in_module<T: MentionTest>(test: &T, m: &Module) -> bool
    ensures { result ≡ list_any (T.holds test.now) (mentions_of m.now) }
{
    any_in_decls(test, m.decls.as_slice()) || any_in_functions(test, m.functions.as_slice())
}

fn any_in_decls<T: MentionTest>(test: &T, decls: &[Decl]) -> bool
    ensures { result ≡ list_any (T.holds test.now) (flat_map in_decl decls.now) }
{
    for decl in decls {
        if any_in_decl(test, decl) {
            return true;
        }
    }
    false
}

fn any_in_functions<T: MentionTest>(test: &T, functions: &[Function]) -> bool
    ensures { result ≡ list_any (T.holds test.now) (flat_map in_function functions.now) }
{
    for function in functions {
        if any_in_function(test, function) {
            return true;
        }
    }
    false
}

/// Whether the test holds of a type that the function mentions.
pub fn any_in_function<T: MentionTest>(test: &T, function: &Function) -> bool
    ensures { result ≡ list_any (T.holds test.now) (in_function function.now) }
{
    any_in_signature(test, &function.signature) || any_in_blocks(test, function.blocks.as_slice())
}

fn any_in_blocks<T: MentionTest>(test: &T, blocks: &[Block]) -> bool
    ensures { result ≡ list_any (T.holds test.now) (flat_map in_block blocks.now) }
{
    for block in blocks {
        if any_in_block(test, block) {
            return true;
        }
    }
    false
}

fn any_in_block<T: MentionTest>(test: &T, block: &Block) -> bool
    ensures { result ≡ list_any (T.holds test.now) (in_block block.now) }
{
    any_in_args(test, block.args.as_slice())
        || any_in_insts(test, block.insts.as_slice())
        || any_in_inst(test, &block.terminator)
}

fn any_in_args<T: MentionTest>(test: &T, args: &[BlockArg]) -> bool
    ensures { result ≡ list_any (T.holds test.now) (map in_arg args.now) }
{
    for arg in args {
        if test.of_written(Standing::Value, &arg.ty) {
            return true;
        }
    }
    false
}

fn any_in_insts<T: MentionTest>(test: &T, insts: &[Boxed<Inst>]) -> bool
    ensures { result ≡ list_any (T.holds test.now) (flat_map in_inst insts.now) }
{
    for inst in insts {
        if any_in_inst(test, inst.get()) {
            return true;
        }
    }
    false
}
