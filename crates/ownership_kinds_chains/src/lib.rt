//! The kind and the bases of each value, along chains of forwarding, and rings of such chains: a value is its origin and the
//! values that it is made from.
//! By these, what each item of a function does to the values that begin and end. It knows of no rule and no walk, and not how a
//! value comes by its origin.
#![tactic(auto)]

mod ownership_chains;
mod ownership_marks;

pub use ownership_chains::{
    Definition, Facts, Origin, Outcome, bases_of, facts_are_told_in_time, facts_are_unique,
    first_cyclic, kind_of, kinds_of,
};
pub use ownership_marks::{Kinds, Mark, MarkSort};
