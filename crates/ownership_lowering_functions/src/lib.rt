//! Lowers functions: ownership becomes retains and releases, and values are numbered anew, in the places of the old
//! instructions.
//! It knows of no rule, no module and no run.
#![tactic(auto)]

mod function_lowering;
mod value_renumbering;

pub use function_lowering::lower_functions;
pub use value_renumbering::{NewNumbers, Places, numbers_by_place, renumber_inst};
