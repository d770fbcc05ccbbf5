//! What is met along a walk.

use sil_ast::{EdgeId, PointId};

/// An item of a function.
#[derive(Clone, Copy, PartialEq, Eq, Debug)]
pub enum Item {
    /// The function begins, and with it the arguments of its entry block.
    Entry,
    /// An instruction that is no terminator.
    Inst(PointId),
    /// A terminator and one of its edges, which begins the arguments of the block that it goes to.
    Edge(EdgeId),
    /// A `return` or an `unreachable`.
    Exit(PointId),
}
