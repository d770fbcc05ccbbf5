//! Writes the report of a run: its events, how it ended, after a return the objects that are left, and how often references were counted.
//! It runs nothing, and knows of no heap.
#![tactic(auto)]

mod layers;
mod lines;
mod outcome;
mod pieces;
mod report;
mod values;

pub use outcome::{Ending, RunOutcome};
pub use report::write_report;
