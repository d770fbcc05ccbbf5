//! Rule 301: on every walk each value is an operand only after its definition.
//! It knows what an item takes and makes, and nothing of ownership.
#![tactic(auto)]

mod accesses;
mod availability;

pub use availability::check;
