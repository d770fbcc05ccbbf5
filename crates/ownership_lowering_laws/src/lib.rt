//! Laws of lowered modules: their names and numbers, that they are in numbered form but for the limit on instructions, that
//! their declarations and types stay in order, and that they stay typed.
//! It has no code that runs, and knows of no run.
#![tactic(auto)]

mod lowered_numbering_laws;
mod lowered_typing_laws;
mod lowering_laws;

pub use lowered_numbering_laws::{declares_the_same, lowered_is_numbered, types_are_kept};
pub use lowered_typing_laws::lowered_is_typed;
pub use lowering_laws::{functions_are_lowerable, kinds_have_no_rings};
