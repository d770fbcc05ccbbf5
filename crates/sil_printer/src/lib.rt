//! The canonical text of a module. What the text means, and whether the module keeps any rule, is not asked here.
#![tactic(auto)]

mod debug;
mod decls;
mod edges;
mod functions;
mod insts;
mod modules;
mod operands;
mod pieces;
mod signatures;
mod types;

pub use modules::print;
