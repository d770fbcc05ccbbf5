//! Rewrites copies in place, in a module or a function: as borrows and as moves. Which can go isn't asked here.
mod blocks;
mod functions;
mod insts;
mod modules;

pub use modules::{lend, move_copy};
