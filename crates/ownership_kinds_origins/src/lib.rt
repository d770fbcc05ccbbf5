//! How each value of a function comes by its kind and its bases, and which values are other names of others.
//! It decides nothing, and knows of no rule.
#![tactic(auto)]

mod args;
mod defining;
mod in_order;
mod operands;
mod renamed;
mod renaming;
mod results;
mod switched;
mod switching;
mod trivial;

pub use defining::definitions;
pub use in_order::are_renamed_in_order;
pub use renamed::renamings;
pub use switched::Switched;
pub use switching::{switch_of, switches};
