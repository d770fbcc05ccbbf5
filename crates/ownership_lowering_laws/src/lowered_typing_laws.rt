//! The law that lowering keeps a module typed. It has no code that runs.
mod laws;

pub use laws::lowered_is_typed;
