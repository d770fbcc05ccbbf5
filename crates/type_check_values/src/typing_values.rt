//! The types of a function's values, and whether instructions have operands and results of the types that their rows ask for.
//! It copies no type, and knows of no ownership.
mod operands;
mod results;
mod values;
mod views;

pub use operands::has_wrong_operand_type;
pub use results::has_wrong_result_count;
pub use values::{GivenTypes, find_types, find_value_types};
