//! Laws: an optimised module runs by holders as the module did of which it was made, where a copy became a borrow, where it
//! became a move, and where many were rewritten one after another.
//! It has no code that runs. It knows of no lowered run.
#![tactic(auto)]

mod lent_runs;
mod moved_runs;
mod optimised_runs;

pub use lent_runs::{lent_runs_as_it_did, rewriting_keeps_verified};
pub use moved_runs::moved_runs_as_it_did;
pub use optimised_runs::{optimised_outcomes_agree, optimised_runs_as_it_did};
