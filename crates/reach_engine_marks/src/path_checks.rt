//! Searches the walks of a function for the first break of a switch: a path check is a table of what each item does to which subject, and one call.
//! It knows of no instruction, and not what a rule says.
mod bound;
mod chunk;
mod entry;
mod fault;
mod first;
mod sharing;
mod tables;

pub use entry::Entry;
pub use fault::PathFault;
pub use first::first_fault;
pub use tables::{ItemTable, SubjectMarks, entries_by_item, marks_by_subject};
