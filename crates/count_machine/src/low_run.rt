//! What a run of lowered code is told as.

use count_heap::Heap;
use holder_model::{Event, LeftObject, LowFault, Trap};
use holder_model_values::Val;
use sil_ast::List;

/// A run of lowered code that has ended.
#[derive(Drop)]
pub struct LowRun {
    /// In the order in which they happened.
    pub events: List<Event>,
    pub ending: LowEnd,
    /// After a return the objects that aren't freed, in the order of their numbers. After any other ending none are told.
    pub left: List<LeftObject>,
    pub retains: u64,
    pub releases: u64,
    /// The heap on which the run was made.
    pub heap: Heap,
}

/// How a run of lowered code ends.
#[derive(Drop)]
pub enum LowEnd {
    Returned(Val),
    Trap(Trap),
    /// The turn that would be past the bound wasn't begun.
    OutOfTurns,
    Fault(LowFault),
}
