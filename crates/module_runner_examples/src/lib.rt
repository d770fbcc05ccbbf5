//! Runs of small modules that `sil` never shows, computed in proofs: by holders where these fault, and of lowered code.
#![tactic(auto)]

mod laws;

pub use laws::{holders_fault, lowered_code_faults, lowered_text_reports};
