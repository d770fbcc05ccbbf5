//! Laws: the run of lowered code by stored numbers is the run by holders, where rows and counts go along. It has no code that runs.
mod laws;

pub use laws::{lowered_runs_are_same, numbers_are_counts};
