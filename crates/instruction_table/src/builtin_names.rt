//! The names of builtin operations, as a text spells them. What the operations do is not said here.
mod names;

pub use names::{Operation, Width, is_builtin_name, operation_spelling, width_spelling};
