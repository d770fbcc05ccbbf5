//! What a run shows to the outside.

use sil_ast::{FuncId, List, ObjectId, Text};

/// One of the things that a run shows, in the order in which they happen.
#[derive(Drop)]
pub enum Event {
    /// A function without a body was called, with these integers.
    Call { function: FuncId, args: List<i64> },
    /// An object began to be deinitialised. `class_name` is the class that was allocated.
    Deinit { class_name: Text, object: ObjectId },
}
