//! What becomes of the rules on memory where a copy becomes a borrow. It has no code that runs.
mod laws;

pub use laws::lent_memory_is_clean;
