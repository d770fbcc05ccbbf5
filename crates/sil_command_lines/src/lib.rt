//! The lines of the command's answers, made from typed values. It decides nothing: neither which lines are answered, nor with which status.
#![tactic(auto)]

mod refusals;
mod sums;
mod texts;
mod value_lines;

pub use refusals::refused_line;
pub use sums::{Totals, summary};
pub use texts::{
    accepted, limit, no_entry, not_a_module, passed_limit, read_fault, type_limit, usage,
};
pub use value_lines::push_shown;
