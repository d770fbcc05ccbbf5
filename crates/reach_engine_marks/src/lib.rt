//! Searches by marks. A pattern says which mark is in place behind which marks; the switch, on or off, is the one that nearly
//! every rule on paths is.
//! A path check is a table of what each item does to which subject, and one call, which finds the first break of a switch on
//! the walks of a function. Another search tells, of up to 1,024 subjects together, which ones every walk keeps.
//! It knows of no instruction, and not what a rule says.
#![tactic(auto)]

mod kept_subjects;
mod path_checks;
mod path_patterns;

pub use kept_subjects::mark_broken;
pub use path_checks::{
    Entry, ItemTable, PathFault, SubjectMarks, entries_by_item, first_fault, marks_by_subject,
};
pub use path_patterns::{Mark, turn};
