//! The rules on the types and members that items mention: the first item that breaks one, and the first that it breaks.
//! It knows of no type that holds itself, and takes no memory.
mod by_item;
mod items;
mod storage;
mod types;
mod wrong;

pub use by_item::{ItemFault, first_fault};
pub use wrong::{any_bad_member, any_unknown_superclass, any_wrong_vtable, is_wrong_type};
