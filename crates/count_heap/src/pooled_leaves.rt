//! Leaves in one growing piece of memory, of which pieces are given out and given back. A piece that was given back is given out again.
//! It knows of no object and no class.
mod free;
mod grow;
mod parts;
mod piece;
mod pool;

pub use pool::LeafPool;
