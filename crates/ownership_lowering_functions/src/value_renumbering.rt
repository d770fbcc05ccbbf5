//! New numbers for the values of a function: a table of them by the old ones, and instructions with new numbers in the places
//! of old ones. It knows of no lowering, and decides no number but a place in a list.
mod new_numbers;
mod places;
mod renumbering;

pub use new_numbers::{NewNumbers, Places};
pub use places::numbers_by_place;
pub use renumbering::renumber_inst;
