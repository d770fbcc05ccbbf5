//! Definitions: which modules keep the rules, and of one that doesn't what is wrong with it, the first refusal before all
//! others.
//! A law says that a typed module's functions have graphs. How a rule is decided isn't said here.
#![tactic(auto)]

mod accepted_modules;

pub use accepted_modules::{
    StaticRefusal, ValueRefusal, accepted_where_nothing_is_found, walks_are_shortest,
};
