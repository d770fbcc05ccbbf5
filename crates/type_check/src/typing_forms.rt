//! Whether a module mixes ownership form and lowered form, and whether words in brackets and cases of a switch fit the types
//! there. It knows of no order of rules, no value and no walk.
mod enum_cases;
mod forms;
mod incoming;
mod parts;
mod payloads;
mod qualifiers;
mod switch_cases;
mod switches;

pub use forms::{first_form, is_of_other_form, mixes_forms};
pub use incoming::count_incoming;
pub use qualifiers::has_wrong_qualifier;
pub use switches::has_wrong_cases;
