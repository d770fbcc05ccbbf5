//! The declarations and vtables of a module, copied, with look-ups by name that take no memory.
//! It knows of no rule and measures nothing.
mod ancestors;
mod build;
mod contents;
mod lookups;
mod name_index;
mod table;

pub use lookups::{FieldRef, PayloadRef};
pub use table::DeclarationTable;
