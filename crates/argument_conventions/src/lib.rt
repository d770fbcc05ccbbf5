//! How the arguments of functions are handed over, and one table of what that says of a location whose address is handed over.
//! It knows of no rule, no instruction and no walk.
#![tactic(auto)]

mod arguments;
mod convention;
mod remaining;
mod row;

pub use arguments::{FunctionArgument, argument, argument_count, convention_of, direct_count};
pub use convention::{AddressConvention, ArgumentConvention};
pub use remaining::{NextArgument, NextResult, RemainingArguments, all_arguments, next_direct};
pub use row::{AddressRow, CallEffect, Content};
