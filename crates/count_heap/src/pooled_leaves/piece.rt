//! A piece of the leaves.

/// Where a piece lies, and whether it is given out.
#[derive(Clone, Copy)]
pub(crate) struct Piece {
    pub first: usize,
    pub size: u32,
    /// How deep the stack of free pieces of this size is down from here. Of a piece that is given out it is 0.
    pub depth: u32,
    /// The next free piece in the stack: 0, or one more than its number.
    pub next: u32,
}
