//! Goes through the types that a module mentions and the members that it names, with a test of the caller's.
//! It knows of no rule, and takes no memory.
mod decls;
mod functions;
mod insts;
mod members;
mod tests;

pub use decls::any_in_decl;
pub use functions::{any_in_function, any_in_module};
pub use members::any_member_in_function;
pub use tests::{MemberTest, MentionTest};
