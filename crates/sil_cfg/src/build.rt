//! Builds a graph: one block after another, each with numbers for its items.

ghost use Rattle.std.specs.Prelude.{◌≡◌, ◌+◌, ◌<◌, ◌≤◌, ◌^◌, [], ◌∷◌, ◌++◌, length, IfOk, OnOk};
ghost use Rattle.sil_cfg.specs.Layout.{block_of, layout_of, IsSound};
ghost use Rattle.sil_cfg.specs.Items.{entry_of, exit_of, insts_from, point_at, ends_function};
ghost use Rattle.sil_cfg.specs.inner.Build.{HasGraph, IsGraphOf};
ghost use Rattle.sil_cfg.specs.inner.Laying.{LaysMore, LaysBlock, Adds, AreEdgesLaid};

use crate::exits::is_exit;
use crate::item::Item;
use crate::layout::{BlockFlow, EdgeFlow};
use sil_ast::{Block, BlockId, EdgeId, Exhausted, Function, PointId};
use std::alloc::Global;

/// Room for the items of most functions: one for each instruction, and four more for each block.
fn room_for_items(f: &Function) -> usize {
    let mut count: usize = 0;
    for block in f.blocks.as_slice() {
        count = count.saturating_add(block.insts.len()).saturating_add(4);
    }
    count
}

/// The blocks of a function, and what each of their items is.
pub fn build_blocks(alloc: Global, f: &Function) -> Result<(Vec<BlockFlow>, Vec<Item>), Exhausted>
    requires { HasGraph f.now }
    ensures graph { IfOk result (λ r. IsGraphOf (layout_of r.0.items r.1.items) f.now) }
    ensures sound { IfOk result (λ r. IsSound (layout_of r.0.items r.1.items)) }
{
    let mut kinds = Vec::with_capacity(alloc, room_for_items(f))?;
    let mut blocks = Vec::with_capacity(alloc, f.blocks.len())?;
    for (b, block) in f.blocks.as_slice().iter().enumerate() {
        let laid = lay_block(alloc, &mut kinds, BlockId(b as u32), block)?;
        blocks.push(laid)?;
    }
    Ok((blocks, kinds))
}

/// Lays out one block.
fn lay_block(
    alloc: Global,
    kinds: &mut Vec<Item>,
    b: BlockId,
    block: &Block,
) -> Result<BlockFlow, Exhausted>
    requires insts { length block.now.insts < 2 ^ 32 }
    requires edges { length block.now.terminator.edges < 2 ^ 32 }
    ensures { IfOk result (λ x. LaysBlock b.0 block.now kinds.old.items kinds.new.items (block_of x)) }
{
    let mut items = Vec::with_capacity(alloc, block.insts.len().saturating_add(2))?;
    add_entry(kinds, &mut items, b, block)?;
    add_insts(kinds, &mut items, b, block)?;
    add_exit(kinds, &mut items, b, block)?;
    let edges = lay_edges(alloc, kinds, b, block)?;
    Ok(BlockFlow {
        items,
        edges,
        last: block.insts.len() as u32,
    })
}

/// Adds one item under the next number.
fn add(kinds: &mut Vec<Item>, items: &mut Vec<usize>, item: Item) -> Result<(), Exhausted>
    ensures kinds { OnOk result (kinds.new.items ≡ kinds.old.items ++ item ∷ []) }
    ensures number { OnOk result (items.new.items ≡ items.old.items ++ length kinds.old.items ∷ []) }
{
    items.push(kinds.len())?;
    kinds.push(item)?;
    Ok(())
}

/// Adds the entry item, if the block is the entry.
fn add_entry(
    kinds: &mut Vec<Item>,
    items: &mut Vec<usize>,
    b: BlockId,
    block: &Block,
) -> Result<(), Exhausted>
    ensures { OnOk result (LaysMore b.0 block.now kinds.old.items kinds.new.items items.old.items items.new.items (entry_of b.0)) }
{
    if b.0 == 0 {
        add(kinds, items, Item::Entry)?;
        return Ok(());
    }
    Ok(())
}

/// Adds the items of the instructions.
fn add_insts(
    kinds: &mut Vec<Item>,
    items: &mut Vec<usize>,
    b: BlockId,
    block: &Block,
) -> Result<(), Exhausted>
    requires { length block.now.insts < 2 ^ 32 }
    ensures { OnOk result (LaysMore b.0 block.now kinds.old.items kinds.new.items items.old.items items.new.items (insts_from b.0 0 block.now.insts)) }
{
    for k in 0..block.insts.len() {
        let point = PointId {
            block: b,
            index: k as u32,
        };
        add(kinds, items, Item::Inst(point))?;
    }
    Ok(())
}

/// Adds the exit item, if the terminator ends the function.
fn add_exit(
    kinds: &mut Vec<Item>,
    items: &mut Vec<usize>,
    b: BlockId,
    block: &Block,
) -> Result<(), Exhausted>
    requires { length block.now.insts < 2 ^ 32 }
    ensures { OnOk result (LaysMore b.0 block.now kinds.old.items kinds.new.items items.old.items items.new.items
        (exit_of (point_at b.0 (length block.now.insts)) (ends_function block.now.terminator.op))) }
{
    if is_exit(block.terminator.op) {
        let point = PointId {
            block: b,
            index: block.insts.len() as u32,
        };
        add(kinds, items, Item::Exit(point))?;
        return Ok(());
    }
    Ok(())
}

/// Lays out the edges of a block, each with an item of its own.
fn lay_edges(
    alloc: Global,
    kinds: &mut Vec<Item>,
    b: BlockId,
    block: &Block,
) -> Result<Vec<EdgeFlow>, Exhausted>
    requires { length block.now.terminator.edges < 2 ^ 32 }
    ensures adds { OnOk result (Adds b.0 block.now kinds.old.items kinds.new.items) }
    ensures edges { IfOk result (λ flows. AreEdgesLaid kinds.new.items b.0 block.now.terminator.edges flows.items) }
{
    let mut flows = Vec::new(alloc);
    for (index, edge) in block.terminator.edges.as_slice().iter().enumerate() {
        flows.push(EdgeFlow {
            target: edge.block.0,
            item: kinds.len(),
        })?;
        kinds.push(Item::Edge(EdgeId {
            block: b,
            index: index as u32,
        }))?;
    }
    Ok(flows)
}
