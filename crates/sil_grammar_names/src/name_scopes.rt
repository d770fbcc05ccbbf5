//! The names of a written module, scope by scope: which are defined, with what numbers, and the first that is defined
//! twice. It knows of no text and of no rule, and of no module but the written one.
mod defining;
mod symbol_table;

pub use defining::{classes_of_vtables, declared, functions, labels, members, values};
pub use symbol_table::{SymbolTable, advanced};
