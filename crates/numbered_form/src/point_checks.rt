//! Broken rules that no walk is needed to show: where they are, which of them comes first, and one pass that finds it.
//! How a rule is decided isn't said here.
mod check;
mod fault;
mod pass;
mod place;

pub use check::PointCheck;
pub use fault::{PointFault, lesser, rule_fault};
pub use pass::least_fault;
pub use place::inst_at;
