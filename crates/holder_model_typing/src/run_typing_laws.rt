//! The law that a lowered module that is typed is typed in the words of a run. It has no code that runs.
mod laws;

pub use laws::runnable_is_typed;
