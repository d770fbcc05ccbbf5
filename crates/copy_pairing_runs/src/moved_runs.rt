//! Law: a module in which a copy became a move runs by holders as it did. It has no code that runs.
mod laws;

pub use laws::moved_runs_as_it_did;
