//! Numbers that are given in order, and the slot that each has. A look-up is a handful of loads, and a number that was taken out leaves
//! nothing behind. It knows of no object.
mod chains;
mod entry;
mod table;
mod widen;

pub use table::NumberTable;
