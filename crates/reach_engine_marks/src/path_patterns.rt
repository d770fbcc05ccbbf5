//! A pattern says which mark is in place behind which marks. The switch, on or off, is the one that nearly every path rule is.
//! It knows what a walk is, and of no rule and no instruction.
mod mark;

pub use mark::{Mark, turn};
