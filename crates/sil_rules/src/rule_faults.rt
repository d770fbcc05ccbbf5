//! A broken rule of a function: which one, of which value, where and on which walk; and which of two comes first.
//! How a rule is decided isn't said here.
mod fault;
mod order;

pub use fault::{RuleEnd, RuleFault};
pub use order::earlier;
