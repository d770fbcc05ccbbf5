//! What is counted over many parts of a text: declarations and functions, attributes, instructions and values.

ghost use Rattle.std.specs.List.{flat_map};
ghost use Rattle.sil_grammar_declarations.specs.inner.Found.{Finds, decl_places, function_places, kept_places};
ghost use Rattle.sil_grammar_tree.specs.WrittenTree.Places as placed;

use crate::found::{Found, Holds, find_listed, find_one};
use instruction_table::{ExtraValue, extra_value_of, has_one_result};
use sil_ast::Qualifier;
use sil_grammar_tree::{InstBox, WrittenBlock, WrittenInst, WrittenItem, WrittenToken};

/// Declarations, at their names.
pub(crate) struct Declarations;

impl Holds for Declarations {
    type Part = WrittenItem;

    ghost places = { decl_places };

    fn find(item: &WrittenItem, i: usize) -> Found {
        match item {
            WrittenItem::Decl(decl) => find_one(decl.name().place, i),
            _ => Found::Past(i),
        }
    }
}

/// Functions, at their names.
pub(crate) struct Functions;

impl Holds for Functions {
    type Part = WrittenItem;

    ghost places = { function_places };

    fn find(item: &WrittenItem, i: usize) -> Found {
        match item {
            WrittenItem::Function(function) => find_one(function.name.place, i),
            _ => Found::Past(i),
        }
    }
}

/// Attributes without `[ossa]`.
pub(crate) struct Attributes;

impl Holds for Attributes {
    type Part = WrittenToken;

    ghost places = { kept_places };

    fn find(word: &WrittenToken, i: usize) -> Found {
        if word.is_ossa() {
            Found::Past(i)
        } else {
            find_one(word.place, i)
        }
    }
}

/// Instructions, at their mnemonics, with the terminators.
pub(crate) struct Instructions;

impl Holds for Instructions {
    type Part = WrittenBlock;

    ghost places = { placed.mnemonics_of };

    fn find(block: &WrittenBlock, i: usize) -> Found {
        match find_listed(block.insts.as_slice(), i) {
            Found::At(place) => Found::At(place),
            Found::Past(rest) => find_one(block.terminator.mnemonic, rest),
        }
    }
}

/// Values, where they are defined.
pub(crate) struct Values;

impl Holds for Values {
    type Part = WrittenBlock;

    ghost places = { placed.values_of_block };

    fn find(block: &WrittenBlock, i: usize) -> Found {
        match find_listed(block.args.as_slice(), i) {
            Found::At(place) => Found::At(place),
            Found::Past(rest) => find_in_insts(block.insts.as_slice(), rest),
        }
    }
}

fn find_in_insts(insts: &[InstBox], i: usize) -> Found
    ensures { Finds (flat_map placed.value_places_of insts.now) i result }
{
    let mut left = i;
    for inst in insts {
        match find_in_inst(inst.get(), left) {
            Found::At(place) => return Found::At(place),
            Found::Past(rest) => left = rest,
        }
    }
    Found::Past(left)
}

fn find_in_inst(inst: &WrittenInst, i: usize) -> Found
    ensures { Finds (placed.value_places_of inst.now) i result }
{
    match find_result(inst, i) {
        Found::At(place) => Found::At(place),
        Found::Past(rest) => find_extra(inst, rest),
    }
}

fn find_result(inst: &WrittenInst, i: usize) -> Found
    ensures { Finds (placed.result_places inst.now.op inst.now.mnemonic inst.now.results) i result }
{
    if !inst.results.is_empty() {
        find_listed(inst.results.as_slice(), i)
    } else if has_one_result(inst.op) {
        find_one(inst.mnemonic, i)
    } else {
        Found::Past(i)
    }
}

/// A `store [assign]` and a `destroy_addr` count as one value more.
#[tactic(auto, unfolding(sil_grammar_tree::specs::WrittenTree::Places::extra_places))]
fn find_extra(inst: &WrittenInst, i: usize) -> Found
    ensures { Finds (placed.extra_places inst.now.op inst.now.mnemonic inst.now.qualifier.word inst.now.qualifier.place) i result }
{
    match extra_value_of(inst.op) {
        ExtraValue::Never => Found::Past(i),
        ExtraValue::Always => find_one(inst.mnemonic, i),
        ExtraValue::WhereAssigned => match inst.qualifier.word {
            Qualifier::Assign => find_one(inst.qualifier.place, i),
            _ => Found::Past(i),
        },
    }
}
