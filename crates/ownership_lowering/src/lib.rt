//! Lowers an accepted module to one that can be run. What becomes of its functions isn't said here.
#![tactic(auto)]

mod laws;
mod lowering;

pub use laws::accepted_lowers_runnable;
pub use lowering::{lower, lower_in_place};
pub use sil_verifier::{Checked, VerifyEnd, verify};
