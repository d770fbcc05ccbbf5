//! What lowering makes of a module: definitions, with the one column of the table of instructions that they need.
//! It lowers nothing, and knows of no run.
#![tactic(auto)]

mod columns;
mod lowering;

pub use columns::LOWERINGS;
pub use lowering::Lowering;
