//! What may go wrong in a run of lowered code.

use sil_ast::{ObjectId, ValueId};

/// A fault of a run of lowered code. Where several fit one instruction, `Missing` comes first, and then `Slot`, `Dead`, `Empty` and
/// `Underflow`.
#[derive(Clone, Copy, Debug, PartialEq, Eq)]
pub enum LowFault {
    /// A reference was released of an object whose strong number is `count`, which is 0.
    Underflow { object: ObjectId, count: u64 },
    /// An operation on a dead object.
    Dead { object: ObjectId },
    /// An empty place was read, or a part of one was written.
    Empty,
    /// A name was used that has no value.
    Missing { value: ValueId },
    /// A slot was accessed that is gone, deallocated out of order, or left at a `return`.
    Slot,
}
