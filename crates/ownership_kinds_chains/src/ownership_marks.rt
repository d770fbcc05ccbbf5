//! What each item of a function does to the values that begin and end.
//! It knows of no rule and no walk: the kinds and bases of values are given to it.
mod kinds;
mod mark;
mod marks;

pub use kinds::Kinds;
pub use mark::{Mark, MarkSort};
