//! What a module declares, which types it mentions, and what is measured on types: definitions, with the few types that they
//! need.
//! The declarations and vtables of a module, copied, with look-ups by name that take no memory. It decides no rule and measures
//! nothing.
#![tactic(auto)]

mod type_declarations;
mod type_definitions;

pub use type_declarations::{DeclarationTable, FieldRef, PayloadRef};
pub use type_definitions::{Kind, Measure, Standing};
