//! What an item of a function takes and makes: its instruction, its operands and what is done to them, what its edge hands over,
//! and the values that it defines. It knows of no kind, no rule and no walk.
#![tactic(auto)]

mod items;
mod parts;
mod taken;

pub use items::{add_item_defined, add_item_taken};
pub use parts::{item_arguments, item_handover, item_inst, item_operands, item_results};
pub use taken::{Taken, add_taken_along, add_taken_by};
