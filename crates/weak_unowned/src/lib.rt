//! How many unowned and weak places name each object, by the slot that keeps it, and which slots are idle.
//! It knows of no object's number, no strong reference and no field.
#![tactic(auto)]

mod side;
mod side_counts;

pub use side::{Side, SlotSides};
pub use side_counts::SideCounts;
