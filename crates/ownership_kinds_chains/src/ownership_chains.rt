//! The kind and the bases of each value, along chains of forwarding, and rings of such chains.
//! It knows of no instruction and no module: a value is its origin and the values that it is made from.
mod bases;
mod definition;
mod derive;
mod facts;
mod laws;
mod numbers;
mod order;
mod outcome;
mod rings;
mod settle;

pub use definition::{Definition, Origin};
pub use facts::{Facts, bases_of, kind_of};
pub use laws::{facts_are_told_in_time, facts_are_unique};
pub use outcome::{Outcome, kinds_of};
pub use rings::first_cyclic;
