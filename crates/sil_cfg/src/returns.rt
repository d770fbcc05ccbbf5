//! Which items are a `return`.

ghost use Rattle.std.specs.Prelude.{◌≡◌, ℕ, Some, false, slice_get, slice_index_or, IfOk};
ghost use Rattle.sil_cfg.specs.Layout.{item_at};
ghost use Rattle.sil_cfg.specs.Returns as returns;
ghost use Rattle.sil_cfg.specs.declared.item.Item as item;

use crate::graph::Graph;
use crate::item::Item;
use instruction_table::{Ending, ending_of};
use sil_ast::{BlockId, Exhausted, Function};
use std::alloc::Global;

fn returns_by(ending: Ending) -> bool
    ensures { result ≡ returns.returns_by ending }
{
    match ending {
        Ending::Return => true,
        Ending::Inside
        | Ending::OneBranch
        | Ending::TwoBranches
        | Ending::Cases
        | Ending::Unreachable => false,
    }
}

/// Whether the block ends with a `return`.
fn returns_in(f: &Function, b: BlockId) -> bool
    ensures { result ≡ returns.returns_in (slice_get f.now.blocks b.0) }
{
    match f.blocks.get(b.0 as usize) {
        None => false,
        Some(block) => returns_by(ending_of(block.terminator.op)),
    }
}

/// Whether the item is a `return`.
fn is_return(f: &Function, item: Item) -> bool
    ensures { result ≡ returns.is_return f.now item }
{
    match item {
        Item::Entry | Item::Inst(_) | Item::Edge(_) => false,
        Item::Exit(p) => returns_in(f, p.block),
    }
}

/// Which items are a `return`, by their numbers.
pub fn returns_by_item(alloc: Global, f: &Function, g: &Graph) -> Result<Vec<bool>, Exhausted>
    ensures { IfOk result (λ v. (i : ℕ) (item : item.Item) → item_at g.now i ≡ Some item → slice_index_or v.items i false ≡ returns.is_return f.now item) }
{
    let mut returns = Vec::with_capacity(alloc, g.items())?;
    for i in 0..g.items() {
        returns.push(is_return(f, g.item(i)))?;
    }
    Ok(returns)
}
