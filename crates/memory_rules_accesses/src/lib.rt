//! What each item of a function does to memory: which location an address names, and which operations are done there.
//! It knows of no rule and no walk.
#![tactic(auto)]

mod access;
mod accesses;
mod columns;
mod item_accesses;
mod locating;
mod location;
mod memory;
mod operations;
mod rows;
mod source;
mod sources;

pub use access::{Access, Operated, Operation};
pub use accesses::{accesses_anew, accesses_by_item, make_accesses};
pub use columns::{AccessKind, Allowance, access_kind_of, allowance_of};
pub use location::{Cell, Location};
pub use memory::Memory;
pub use operations::{add_addresses, add_operations, deallocates};
pub use source::Source;
