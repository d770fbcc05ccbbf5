//! What contracts see of a heap, and what each of its calls makes of it: definitions, with the types of the answers. It has no heap.
mod released;

pub use released::{Released, Underflow};
