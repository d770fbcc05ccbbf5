//! Whether a function has a graph.

ghost use Rattle.std.specs.Prelude.{◌≡◌, ◌↔◌, ◌<◌, ◌^◌, All, IsTrue};
ghost use Rattle.sil_cfg.specs.inner.Build.{HasGraph, IsBlockLinked};

use sil_ast::{Block, Edge, Function};

/// How many blocks, instructions of a block, and edges of a block a graph can number.
const MOST: usize = 0xffff_ffff;

/// Whether the function has a graph: it has a body, its parts can be numbered, and its edges go to its blocks.
pub fn has_graph(f: &Function) -> bool
    ensures { IsTrue result ↔ HasGraph f.now }
{
    let blocks = f.blocks.as_slice();
    if blocks.is_empty() || blocks.len() > MOST {
        return false;
    }
    for block in blocks {
        if !is_linked(f, block) {
            return false;
        }
    }
    true
}

fn is_linked(f: &Function, block: &Block) -> bool
    ensures { IsTrue result ↔ IsBlockLinked f.now block.now }
{
    if block.insts.len() > MOST {
        return false;
    }
    if block.terminator.edges.len() > MOST {
        return false;
    }
    stay_below(block.terminator.edges.as_slice(), f.blocks.len())
}

/// Whether the edges go to the first so many blocks.
fn stay_below(edges: &[Edge], blocks: usize) -> bool
    ensures { IsTrue result ↔ All (λ e. e.block.0 < blocks) edges.now }
{
    for edge in edges {
        if edge.block.0 as usize >= blocks {
            return false;
        }
    }
    true
}
