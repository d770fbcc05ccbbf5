//! The values of the parts of a text while a module is built from its end to its beginning: what they are, what is taken
//! out of them, and how they wait. The crates above build declarations, types, functions and instructions of them.
#![tactic(auto)]

pub mod faults;
pub mod nothing;
pub mod passed_on;
pub mod placed;
pub mod prepended;
pub mod put;
pub mod starred;
pub mod value;
mod value_code;
mod value_parts;
pub mod written_types;
