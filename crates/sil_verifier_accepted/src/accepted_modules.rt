//! Definitions: which modules keep the rules, and of one that doesn't what is wrong with it, the first refusal before all others.
//! How a rule is decided isn't said here.
mod laws;
mod refusals;

pub use laws::{accepted_where_nothing_is_found, walks_are_shortest};
pub use refusals::{StaticRefusal, ValueRefusal};
