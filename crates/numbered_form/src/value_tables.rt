//! Tables that tell of each value of a function, by the values' numbers: the one walk that makes them, and what such walks ask
//! of an instruction. It knows of no rule, no type and no kind.
mod borrows;
mod first_operand;
mod room;
mod times;
mod value_table;

pub use borrows::{Borrow, borrows_of, is_borrow, lent_by};
pub use first_operand::first_value;
pub use room::room_for_values;
pub use times::push_times;
pub use value_table::{ValueTable, add_values};
