//! Goes through the types that a module mentions and the members that it names, with a test of the caller's; and by this finds
//! the first item that breaks a rule on what items mention, and the first rule that it breaks.
//! What is measured on types: whether they are trivial, their leaves and their depth, counted no further than just past the
//! limits.
//! It knows of no value and no ownership.
#![tactic(auto)]

mod type_item_rules;
mod type_measures;
mod type_mentions;

pub use type_item_rules::{
    ItemFault, any_bad_member, any_unknown_superclass, any_wrong_vtable, first_fault, is_wrong_type,
};
pub use type_measures::{
    containment, measure_name, measure_operands, measure_results, measure_type, measures,
};
pub use type_mentions::{
    MemberTest, MentionTest, any_in_decl, any_in_function, any_in_module, any_member_in_function,
};
