//! The law that a module stays in numbered form and typed where a copy that can go is rewritten. It has no code that runs.
mod laws;

pub use laws::rewriting_keeps_types;
