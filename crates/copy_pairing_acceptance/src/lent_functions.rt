//! The law that a function in which a copy is a borrow keeps every rule on values that isn't on memory, and the lemmas that tell its graph, items, facts and
//! marks by those of the function. It has no code that runs.
mod laws;

pub use laws::lent_values_are_clean;
