//! Which copies of an accepted module can go, and the module without them.
//! What can go is defined in `copy_pairing_model`. It knows of no run and no text.
#![tactic(auto)]

mod moves;
mod notes;
mod optimiser;
mod passes;
mod removals;
mod surveys;
mod turns;

pub use copy_pairing_model::Removal;
pub use copy_pairing_runs::{optimised_outcomes_agree, rewriting_keeps_verified};
pub use optimiser::{Unfinished, optimize, optimize_in_place};
pub use removals::removable;
