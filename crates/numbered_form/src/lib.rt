//! Numbered form: what holds of a module that was read, before any rule of types or ownership. It says what that is, for the
//! laws on reading and printing.
//! Beside it stand the walk that makes tables by the numbers of a function's values, and the pass that finds the first fault of
//! rules that need no walk.
//! It knows of no text, no type and no kind, and not how a rule is decided.
#![tactic(auto)]

mod point_checks;
mod value_tables;

pub use point_checks::{PointCheck, PointFault, inst_at, least_fault, lesser, rule_fault};
pub use value_tables::{
    Borrow, ValueTable, add_values, borrows_of, first_value, is_borrow, lent_by, push_times,
    room_for_values,
};
