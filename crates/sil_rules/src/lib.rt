//! The rules, limits and statuses that a user meets, each by its number and word, and the order of refusals.
//! A broken rule of a function is which one, of which value, where and on which walk; which of two comes first is said here,
//! and how a rule is decided isn't.
#![tactic(auto)]

mod group;
mod laws;
mod limit_word;
pub mod limits;
mod rule;
mod rule_faults;
mod status;

pub use group::Group;
pub use laws::{keys_are_ordered, numbers_go_up};
pub use limit_word::LimitWord;
pub use rule::Rule;
pub use rule_faults::{RuleEnd, RuleFault, earlier};
pub use status::Status;
