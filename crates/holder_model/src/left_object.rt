//! Objects that are there when a run has returned.

use sil_ast::{ObjectId, Text};

/// An object that isn't freed after a return: it isn't dead, or weak or unowned storage names it.
#[derive(Drop)]
pub struct LeftObject {
    pub object: ObjectId,
    /// The class that was allocated.
    pub class_name: Text,
    /// It isn't dead.
    pub live: bool,
    pub strong: u64,
    pub unowned: u64,
    pub weak: u64,
}
