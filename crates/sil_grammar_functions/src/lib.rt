//! Functions as a text writes them: what the productions of signatures and of blocks stand for, and the first fault in each.
#![tactic(auto)]

mod build_blocks;
mod build_functions;
mod reduce_blocks;
mod reduce_functions;
mod reduce_signatures;

pub use reduce_blocks::reduce_block;
pub use reduce_functions::reduce_function;
pub use reduce_signatures::reduce_signature;
