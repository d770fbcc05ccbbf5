//! Which lists of token classes have the shape of a module, by the tables of the grammar.
//! It knows of no text, no value and no limit: the crate above builds a module from the steps that are found here.
#![tactic(auto)]

mod choice;
mod class_numbers;
mod lookahead;
pub mod machine;
mod parse_table;
pub mod shortest_steps;
pub mod steps;
pub mod unsupported;
