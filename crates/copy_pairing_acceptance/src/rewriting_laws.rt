//! The laws that a verified module stays verified where copies that can go are rewritten. It has no code that runs.
mod laws;

pub use laws::{optimised_is_verified, rewriting_keeps_verified};
