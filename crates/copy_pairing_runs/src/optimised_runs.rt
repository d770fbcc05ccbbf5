//! Laws: an optimised module runs by holders as the module did of which it was made. It has no code that runs.
mod laws;

pub use laws::{optimised_outcomes_agree, optimised_runs_as_it_did};
