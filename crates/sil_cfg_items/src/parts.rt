//! The parts of a function that belong to an item.

ghost use Rattle.std.specs.Prelude.{◌≡◌};
ghost use Rattle.std.specs.Option.{option_copied};
ghost use Rattle.sil_cfg_items.specs.Parts as parts;

use sil_ast::{BlockArg, BlockId, Edge, EdgeId, Function, Inst, Operand, PointId, ValueId};
use sil_cfg::Item;

/// The instruction at a point, and none where the terminator stands.
fn inst_at(f: &Function, p: PointId) -> Option<&Inst>
    ensures { option_copied result ≡ parts.inst_at f.now p }
{
    match f.blocks.get(p.block.0 as usize) {
        None => None,
        Some(block) => block.inst(p.index as usize),
    }
}

fn terminator_of(f: &Function, b: BlockId) -> Option<&Inst>
    ensures { option_copied result ≡ parts.terminator_of f.now b.0 }
{
    match f.blocks.get(b.0 as usize) {
        None => None,
        Some(block) => Some(&block.terminator),
    }
}

fn edge_at(f: &Function, e: EdgeId) -> Option<&Edge>
    ensures { option_copied result ≡ parts.edge_at f.now e }
{
    match terminator_of(f, e.block) {
        None => None,
        Some(terminator) => terminator.edges.get(e.index as usize),
    }
}

/// The arguments of the block to which an edge goes, and none where there is no edge.
fn args_behind<'f>(f: &'f Function, edge: Option<&Edge>) -> &'f [BlockArg]
    ensures { result.now ≡ parts.args_behind f.now (option_copied edge.entry) }
{
    match edge {
        None => &[],
        Some(edge) => f.args_of(edge.block.0 as usize),
    }
}

/// The instruction of an item: a terminator for its edges and its exit.
pub fn item_inst(f: &Function, item: Item) -> Option<&Inst>
    ensures { option_copied result ≡ parts.item_inst f.now item }
{
    match item {
        Item::Entry => None,
        Item::Inst(p) => inst_at(f, p),
        Item::Edge(e) => terminator_of(f, e.block),
        Item::Exit(p) => terminator_of(f, p.block),
    }
}

/// The edge of an item, if it is one's.
pub(crate) fn item_edge(f: &Function, item: Item) -> Option<&Edge>
    ensures { option_copied result ≡ parts.item_edge f.now item }
{
    match item {
        Item::Edge(e) => edge_at(f, e),
        Item::Entry | Item::Inst(_) | Item::Exit(_) => None,
    }
}

/// The operands of the item's instruction.
pub fn item_operands(f: &Function, item: Item) -> &[Operand]
    ensures { result.now ≡ parts.item_operands f.now item }
{
    match item_inst(f, item) {
        None => &[],
        Some(inst) => inst.operands.as_slice(),
    }
}

/// What the item's edge hands over: one operand for each of the arguments that begin with the item.
pub fn item_handover(f: &Function, item: Item) -> &[Operand]
    ensures { result.now ≡ parts.item_handover f.now item }
{
    match item_edge(f, item) {
        None => &[],
        Some(edge) => edge.args.as_slice(),
    }
}

fn results_in(inst: Option<&Inst>) -> &[ValueId]
    ensures { result.now ≡ parts.results_in (option_copied inst.entry) }
{
    match inst {
        None => &[],
        Some(inst) => inst.results.as_slice(),
    }
}

/// The results of the item's instruction; a terminator makes none.
pub fn item_results(f: &Function, item: Item) -> &[ValueId]
    ensures { result.now ≡ parts.item_results f.now item }
{
    match item {
        Item::Inst(p) => results_in(inst_at(f, p)),
        Item::Entry | Item::Edge(_) | Item::Exit(_) => &[],
    }
}

/// The arguments that begin with the item: those of the entry, or of the block to which its edge goes.
pub fn item_arguments(f: &Function, item: Item) -> &[BlockArg]
    ensures { result.now ≡ parts.item_arguments f.now item }
{
    match item {
        Item::Entry => f.args_of(0),
        Item::Edge(e) => args_behind(f, edge_at(f, e)),
        Item::Inst(_) | Item::Exit(_) => &[],
    }
}
