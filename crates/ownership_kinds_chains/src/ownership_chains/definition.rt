//! How a value comes by its kind and its bases.

use sil_ast::{ShortList, ValueId};

/// What the instruction that defines a value, or the annotation of an argument, says of it.
#[derive(Clone, Copy, Debug, PartialEq, Eq)]
pub enum Origin {
    /// It begins here as Owned, and is its own base.
    Owned,
    /// It begins here as Guaranteed, and is its own base: a borrow or a `@guaranteed` argument of the entry.
    Lender,
    /// It has no kind to speak of, and no base: its type is trivial, or nothing is forwarded to it.
    Plain,
    /// It is Owned, and its own base, where an operand is Owned.
    /// Else it is Guaranteed where one is Guaranteed, with the bases of its Guaranteed operands together, or else as `Plain`.
    Forward,
    /// An extract: the same for its one operand, the first.
    Same,
    /// A `@guaranteed` argument of another block: Guaranteed, with the bases of its Guaranteed operands.
    Lent,
    /// An address: the bases of its operands, whatever their kinds, and no kind of its own.
    Address,
}

/// A value's origin, and the values that a chain goes on to from it.
/// One of a trivial type may have operands too: chains through it are chains.
#[derive(Drop)]
pub struct Definition {
    pub origin: Origin,
    pub operands: ShortList<ValueId, 4>,
}
