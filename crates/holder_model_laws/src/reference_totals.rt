//! Laws: the references that a run of lowered code makes are those whose numbers it stores and those that it has released. It has no code that runs.
mod laws;

pub use laws::totals_are_left;
