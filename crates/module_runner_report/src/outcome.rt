//! What a report tells of a run.

use holder_model::{Event, LeftObject, Trap};
use holder_model_values::Val;

/// How a run of an accepted module ends.
#[derive(Drop)]
pub enum Ending {
    Returned(Val),
    Trap(Trap),
    /// The turn that would be past the bound wasn't begun.
    OutOfTurns,
}

/// What a run shows that has ended.
#[derive(Clone, Copy)]
pub struct RunOutcome<'a> {
    /// In the order in which they happened.
    pub events: &'a [Event],
    pub ending: &'a Ending,
    /// After a return the objects that aren't freed, in the order of their numbers. After any other ending none are told.
    pub left: &'a [LeftObject],
    pub retains: u64,
    pub releases: u64,
}
