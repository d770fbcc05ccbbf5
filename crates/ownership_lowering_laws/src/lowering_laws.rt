//! Laws of the names and numbers of lowered functions. It has no code that runs.
mod laws;

pub use laws::{functions_are_lowerable, kinds_have_no_rings};
