//! What an item does to a value that begins and ends.

use sil_ast::ValueId;

/// What is done to a value: it ends, is used, or begins.
#[derive(Clone, Copy, Debug, PartialEq, Eq)]
pub enum MarkSort {
    End,
    Use,
    Begin,
}

/// A mark of an Owned value, of a borrow, or of a `@guaranteed` argument of the entry.
#[derive(Clone, Copy, Debug, PartialEq, Eq)]
pub struct Mark {
    pub subject: ValueId,
    pub sort: MarkSort,
}
