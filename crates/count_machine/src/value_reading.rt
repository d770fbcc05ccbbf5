//! A value of a run from its leaves, by its type.
mod given;
mod leaves;
mod read;
mod single;

pub use given::read_given;
pub use read::read_value;
