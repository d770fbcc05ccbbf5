//! Tables by numbers: an order of a graph of containment or the first number on a ring, what each item of a graph has in one
//! piece of memory, and the slots of numbers that are given in order.
//! It knows of no module, no object and no rule.
#![tactic(auto)]

mod containment_order;
mod path_lists;
mod table_by_number;

pub use containment_order::{Containment, Rings, order_or_ring, rings_of};
pub use path_lists::ItemLists;
pub use table_by_number::NumberTable;
