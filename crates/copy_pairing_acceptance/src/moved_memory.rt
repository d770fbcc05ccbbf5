//! What memory does in an accepted function of which a copy became a move: no rule on memory is broken there.
//! It has no code that runs.
mod laws;

pub use laws::moved_memory_is_clean;
