//! Laws: a module in which a copy is lent runs by holders as it did. It has no code that runs.
mod laws;

pub use copy_pairing_acceptance::rewriting_keeps_verified;
pub use laws::lent_runs_as_it_did;
