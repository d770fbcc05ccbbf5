//! Names become numbers: which module a written module stands for, and the first name that is defined twice, or used
//! and not defined. It knows of no text and of no rule.
mod first_faults;
mod refusal;
mod resolved_code;
mod resolved_items;
mod resolving;

pub use refusal::NameRefusal;
pub use resolving::resolve;
