//! Graphs of containment, as lists of numbers: an order in which parts stand before wholes, or the first number on a ring.
//! It knows of no declaration and no type.
mod advice;
mod outcome;
mod ranks;
mod rings;
mod search;
mod settle;

pub use outcome::{Containment, order_or_ring};
pub use rings::{Rings, rings_of};
