//! The parts of the patterns of memory: each is a switch by itself.

use argument_conventions::Content;
use memory_rules_accesses::Cell;
use sil_ast::ValueId;

/// A pattern of memory at one subject, or the part of it that is followed by itself.
#[derive(Clone, Copy, Debug, PartialEq, Eq)]
pub enum Part {
    /// Whether a cell is full. Unless it is `trivial` it may not be when it is deallocated. At a `return` it is as `left` says, if that says anything.
    Contents {
        cell: Cell,
        trivial: bool,
        left: Option<Content>,
    },
    /// Whether a slot is allocated.
    Allocation {
        slot: ValueId,
    },
    /// Whether a location is lent to a scope, by the address at which it is.
    Lent {
        scope: ValueId,
        address: ValueId,
    },
    /// Whether a field of a new object is still to be written.
    Building {
        object: ValueId,
        field: usize,
    },
    /// Whether a scope is open that an address lies in.
    InScope {
        address: ValueId,
        scope: ValueId,
    },
    /// Whether the slot is allocated that an address lies in.
    InSlot {
        address: ValueId,
        slot: ValueId,
    },
}
