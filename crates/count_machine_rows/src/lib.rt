//! The instructions that a frame performs by itself, each by its row: all but calls.
#![tactic(auto)]

mod forgetting;
mod giving;
mod group_rows;
mod load_rows;
mod name_loads;
mod name_stores;
mod object_rows;
mod reference_rows;
mod slot_rows;
mod store_rows;
mod value_rows;

pub use group_rows::{choose, first_missing, give_nothing, group};
pub use load_rows::load;
pub use name_loads::load_name;
pub use name_stores::{forget_name, store_name};
pub use object_rows::{field_address, make_object};
pub use reference_rows::{drop_operand, retain};
pub use slot_rows::{make_slot, remove_slot};
pub use store_rows::store;
pub use value_rows::{
    compute, function_value, literal, look, member, member_address, same, trap_where_set,
};
