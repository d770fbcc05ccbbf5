//! How a graph keeps its blocks.

/// Where an edge goes, and its item's number.
#[derive(Clone, Copy, PartialEq, Eq, Debug)]
pub struct EdgeFlow {
    pub target: u32,
    pub item: usize,
}

/// The numbers of a block's items, the edges that leave it, and the index of its terminator.
#[derive(Drop)]
pub struct BlockFlow {
    pub items: Vec<usize>,
    pub edges: Vec<EdgeFlow>,
    pub last: u32,
}
