//! Places in a text, and the numbers by which a module names its parts.

use crate::exhausted::Exhausted;
use crate::try_clone::TryClone;
use std::alloc::Global;

/// Where something stands in a text. `offset` counts bytes from 0; `line` and `column` count from 1, the column in bytes.
#[derive(Clone, Copy, Debug, PartialEq, Eq)]
pub struct Place {
    pub offset: u32,
    pub line: u32,
    pub column: u32,
}

/// A function, by its place in the module, from 0.
#[derive(Clone, Copy, Debug, PartialEq, Eq)]
pub struct FuncId(pub u32);

/// A block, by its place in its function, from 0. The first block is the entry.
#[derive(Clone, Copy, Debug, PartialEq, Eq)]
pub struct BlockId(pub u32);

/// A value, by the order of definition in its function, from 0.
#[derive(Clone, Copy, Debug, Default, PartialEq, Eq)]
pub struct ValueId(pub u32);

/// An object, by the order of allocation in a run, from 0.
#[derive(Clone, Copy, Debug, PartialEq, Eq)]
pub struct ObjectId(pub u64);

/// An edge that leaves a block: the `index`-th of its terminator, from 0.
#[derive(Clone, Copy, Debug, PartialEq, Eq)]
pub struct EdgeId {
    pub block: BlockId,
    pub index: u32,
}

/// A point of a function: the `index`-th instruction of a block, from 0. The terminator has the last index.
#[derive(Clone, Copy, Debug, PartialEq, Eq)]
pub struct PointId {
    pub block: BlockId,
    pub index: u32,
}

impl TryClone for ValueId {
    fn try_clone(&self, _alloc: Global) -> Result<ValueId, Exhausted> {
        Ok(*self)
    }
}
