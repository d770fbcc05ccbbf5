//! What the row of an instruction gives, by the types that are written in it: views of types that a module or its table holds.
//! It copies no type and takes no memory for one.
#![tactic(auto)]

mod aggregates;
mod builtin_rows;
mod builtins;
mod kept;
mod made;
mod rows;
mod same_view;
mod view;
mod written_types;

pub use rows::row_types;
pub use view::{Made, TypeView};
