//! Names become numbers: which module a written module stands for, and the first name that is defined twice, or used and not
//! defined.
//! Each scope has one table, with the names that are defined there and their numbers. It knows of no text and of no rule.
#![tactic(auto)]

mod name_resolution;
mod name_scopes;

pub use name_resolution::{NameRefusal, resolve};
pub use name_scopes::{
    SymbolTable, advanced, classes_of_vtables, declared, functions, labels, members, values,
};
