//! The graph of a function: its blocks, their items and the edges between them, by numbers.

ghost use Rattle.std.specs.Prelude.{◌≡◌, ◌+◌, ◌<◌, ◌≤◌, ◌^◌, All, Some, IfOk};

use crate::build::build_blocks;
use crate::item::Item;
use crate::layout::{BlockFlow, EdgeFlow};
use sil_ast::{BlockId, EdgeId, Exhausted, Function, PointId};
use std::alloc::Global;
use std::marker::Model;

/// A function's graph. Its blocks and edges have the function's ids, and its items are numbered from 0.
#[derive(Drop)]
pub struct Graph {
    blocks: Vec<BlockFlow>,
    kinds: Vec<Item>,
}

impl Model for Graph {
    ghost use Rattle.sil_cfg.specs.Layout.{Layout, layout_of, IsSound};

    ghost Value = { Layout };

    ghost view = { λ g. layout_of g.blocks.items g.kinds.items };

    ghost invariant = { λ g. IsSound (layout_of g.blocks.items g.kinds.items) };
}

impl Graph {
    ghost use Rattle.sil_cfg.specs.Layout.{item_at, item_count, edge_at, IsEdgeSound, IsSound};
    ghost use Rattle.sil_cfg.specs.Flow.{IsEdge, block_count, items_at, edge_count, edge_to, edge_item, numbered, point_of};
    ghost use Rattle.sil_cfg.specs.inner.Build.{HasGraph, IsGraphOf};
    ghost use Rattle.sil_cfg.specs.declared.item.Item.{Item};

    /// The graph of a function.
    pub fn build(alloc: Global, f: &Function) -> Result<Graph, Exhausted>
        requires { HasGraph f.now }
        ensures { IfOk result (λ g. IsGraphOf g f.now) }
    {
        let (blocks, kinds) = build_blocks(alloc, f)?;
        Ok(Graph { blocks, kinds })
    }

    /// How many blocks there are.
    pub fn blocks(&self) -> u32
        ensures count { result ≡ block_count (numbered self.now) }
        ensures sound { IsSound self.now }
    {
        self.blocks.len() as u32
    }

    /// How many items there are.
    pub fn items(&self) -> usize
        ensures { result ≡ item_count self.now }
    {
        self.kinds.len()
    }

    /// How many edges leave the block. Their indices count from 0.
    pub fn edges(&self, b: BlockId) -> u32
        requires { b.0 < block_count (numbered self.now) }
        ensures { result ≡ edge_count (numbered self.now) b.0 }
    {
        let block = &self.blocks[b.0 as usize];
        block.edges.len() as u32
    }

    /// The items of the block, in order, without those of its edges.
    pub fn items_of(&self, b: BlockId) -> &[usize]
        requires { b.0 < block_count (numbered self.now) }
        ensures items { result.now ≡ items_at (numbered self.now) b.0 }
        ensures below { All (λ i. i < item_count self.now) result.now }
    {
        let block = &self.blocks[b.0 as usize];
        block.items.as_slice()
    }

    /// The block that the edge leaves.
    pub fn edge_from(&self, e: EdgeId) -> BlockId
        requires { IsEdge (numbered self.now) e }
        ensures { result ≡ e.block }
    {
        let _ = &self.blocks;
        e.block
    }

    /// The block to which the edge goes.
    pub fn edge_to(&self, e: EdgeId) -> BlockId
        requires { IsEdge (numbered self.now) e }
        ensures to { result.0 ≡ edge_to (numbered self.now) e }
        ensures below { result.0 < block_count (numbered self.now) }
    {
        BlockId(self.edge_flow(e).target)
    }

    /// The edge's item.
    pub fn edge_item(&self, e: EdgeId) -> usize
        requires { IsEdge (numbered self.now) e }
        ensures item { result ≡ edge_item (numbered self.now) e }
        ensures below { result < item_count self.now }
    {
        self.edge_flow(e).item
    }

    /// What the item is.
    pub fn item(&self, i: usize) -> Item
        requires { i < item_count self.now }
        ensures { item_at self.now i ≡ Some result }
    {
        self.kinds[i]
    }

    /// The point of the item: an edge's item belongs to the terminator, and the entry's to the first point.
    pub fn point(&self, i: usize) -> PointId
        requires { i < item_count self.now }
        ensures { (item : Item) → item_at self.now i ≡ Some item → result ≡ point_of (numbered self.now) item }
    {
        match self.kinds[i] {
            Item::Entry => PointId {
                block: BlockId(0),
                index: 0,
            },
            Item::Inst(point) | Item::Exit(point) => point,
            Item::Edge(edge) => PointId {
                block: edge.block,
                index: self.last(edge.block),
            },
        }
    }

    /// The index of the block's terminator; 0 where there is no such block.
    fn last(&self, b: BlockId) -> u32
        ensures { result ≡ (numbered self.now).last b.0 }
    {
        match self.blocks.get(b.0 as usize) {
            None => 0,
            Some(block) => block.last,
        }
    }

    /// Where the edge goes, and its item.
    fn edge_flow(&self, e: EdgeId) -> EdgeFlow
        requires { IsEdge (numbered self.now) e }
        ensures flow { result ≡ edge_at self.now e }
        ensures sound { IsEdgeSound self.now result }
    {
        let block = &self.blocks[e.block.0 as usize];
        block.edges[e.index as usize]
    }
}
