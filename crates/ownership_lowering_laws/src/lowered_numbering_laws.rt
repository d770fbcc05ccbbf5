//! The laws that a lowered module is in numbered form but for the limit on instructions, and that its declarations and types stay in order.
//! It has no code that runs.
mod laws;

pub use laws::{declares_the_same, lowered_is_numbered, types_are_kept};
