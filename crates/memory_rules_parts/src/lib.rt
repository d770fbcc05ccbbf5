//! Rules 601 to 610 on all walks, but for the order of two slots: each pattern is a table of a switch, in a file of its own.
//! It knows what an item does to memory, and of no instruction.
#![tactic(auto)]

mod addresses;
mod allocations;
mod batch;
mod building;
mod concerned;
mod contents;
mod entries;
mod first;
mod index;
mod key;
mod loans;
mod meaning;
mod others;
mod part;
mod parts;
mod search;
mod single;
mod switch;

pub use first::first_fault;
pub use part::Part;
