//! Which copies can go, and what a function and a module become without them: definitions, with laws of them.
//! It decides nothing and rewrites nothing.
#![tactic(auto)]

mod laws;
mod removal;

pub use laws::{copies_get_fewer, optimised_modules_are_unique};
pub use removal::Removal;
