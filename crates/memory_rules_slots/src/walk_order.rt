//! The blocks that walks reach, each before those that are reached through it, but for loops. It is advice: nothing is promised of it.

use sil_ast::{BlockId, EdgeId, Exhausted};
use sil_cfg::Graph;
use std::alloc::Global;

/// The edges to follow next, and the blocks whose edges have all been followed, the last one last.
#[derive(Drop)]
struct Descent {
    seen: Vec<bool>,
    path: Vec<EdgeId>,
    left: Vec<BlockId>,
}

impl Descent {
    /// Goes into the block, unless it was met before.
    fn enter(&mut self, block: BlockId) -> Result<(), Exhausted> {
        let number = block.0 as usize;
        if number < self.seen.len() && !self.seen[number] {
            self.seen[number] = true;
            self.path.push(EdgeId { block, index: 0 })?;
        }
        Ok(())
    }

    /// Follows the edge, or leaves its block where it has no such edge.
    fn follow(&mut self, g: &Graph, edge: EdgeId) -> Result<(), Exhausted> {
        let block = edge.block;
        if block.0 < g.blocks() && edge.index < g.edges(block) {
            self.path.push(EdgeId {
                block,
                index: edge.index + 1,
            })?;
            self.enter(g.edge_to(edge))
        } else {
            self.left.push(block)?;
            Ok(())
        }
    }
}

/// The blocks, in the reverse of the order in which a descent along edges leaves them.
pub fn blocks_in_order(alloc: Global, g: &Graph) -> Result<Vec<BlockId>, Exhausted> {
    let mut descent = Descent {
        seen: vec![in alloc; false; g.blocks() as usize]?,
        path: Vec::new(alloc),
        left: Vec::new(alloc),
    };
    descent.enter(BlockId(0))?;
    for _ in 0..u64::MAX {
        match descent.path.pop() {
            None => break,
            Some(edge) => descent.follow(g, edge)?,
        }
    }
    descent.left.reverse();
    Ok(descent.left)
}
