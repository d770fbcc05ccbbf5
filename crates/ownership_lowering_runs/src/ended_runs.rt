//! Laws: each run ends, by holders and of lowered code. It has no code that runs.
mod laws;

pub use laws::{lowered_runs_end, runs_end, runs_end_alike};
