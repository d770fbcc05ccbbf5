//! Declarations as a text writes them: what the productions of modules and of declarations stand for, and the first fault
//! in each.
#![tactic(auto)]

mod build_declarations;
mod build_module;
mod counted_faults;
mod counted_parts;
mod found;
mod reduce_declarations;
mod reduce_modules;

pub use reduce_declarations::reduce_declaration;
pub use reduce_modules::reduce_module;
