//! Frames, and what else waits to go on.

use sil_ast::{FuncId, ObjectId};

/// A frame: where control stands, and where its values, their leaves, its addresses and its slots begin in the machine's stacks.
#[derive(Clone, Copy, Debug, PartialEq, Eq)]
pub struct Frame {
    pub function: FuncId,
    pub block: u32,
    pub index: u32,
    pub values: usize,
    pub leaves: usize,
    pub addresses: usize,
    pub slots: usize,
}

/// What waits to go on, or goes on.
#[derive(Clone, Copy, Debug, PartialEq, Eq)]
pub enum Task {
    Runs { frame: Frame },
    /// References wait to be dropped: those from here on in the stack of references that wait, the last one first.
    Drops { from: usize },
    /// An object is being deinitialised: so many of its deinitialisers were called.
    Finishes { object: ObjectId, called: usize },
}
