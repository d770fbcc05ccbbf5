//! Whether a module is typed: the first of 201 to 212 that it breaks, by function, point and rule.
//! Whether it mixes ownership form and lowered form, and whether words in brackets and cases of a switch fit the types there,
//! is decided here, each by itself; how the other rules are decided isn't known. It knows of no ownership.
#![tactic(auto)]

mod body;
mod fault;
mod function_facts;
mod points;
mod refusal;
mod rules;
mod typing;
mod typing_forms;

pub use fault::TypingFault;
pub use refusal::CheckRefusal;
pub use typing::check;
pub use typing_forms::{
    count_incoming, first_form, has_wrong_cases, has_wrong_qualifier, is_of_other_form, mixes_forms,
};
