//! The law that the steps of the counting machine are those of the run of lowered code. It has no code that runs.
#![tactic(auto)]

mod laws;

pub use laws::machine_runs_so;
