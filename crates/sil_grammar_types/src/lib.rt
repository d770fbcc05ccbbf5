//! Types as a text writes them: what the productions of types and of base types stand for, and the first fault in each.
#![tactic(auto)]

mod build_types;
mod reduce_base_types;
mod reduce_types;
mod type_faults;

pub use reduce_base_types::reduce_base_type;
pub use reduce_types::reduce_type;
