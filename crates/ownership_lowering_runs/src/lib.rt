//! Laws: the run of a lowered module by stored numbers is the run by holders of the accepted module. Rows keep stored numbers
//! the counts of holders, both runs go along step by step, and they end alike. And each run ends.
//! It has no code that runs. It knows of no machine and no report.
#![tactic(auto)]

mod ended_runs;
mod same_runs;

pub use ended_runs::{lowered_runs_end, runs_end, runs_end_alike};
pub use same_runs::{lowered_runs_are_same, numbers_are_counts};
