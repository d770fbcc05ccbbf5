//! What each item of a graph has, in one piece of memory.
//! It knows of no graph, no mark and no rule.
mod lists;

pub use lists::ItemLists;
