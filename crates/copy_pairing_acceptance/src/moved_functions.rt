//! What becomes of the walks, facts and marks of a function whose copy is rewritten as a move, and that it keeps the rules on values.
//! It has no code that runs.
mod laws;

pub use laws::moved_values_are_clean;
