//! How many references were made and dropped.

/// How many retains and releases there were over a heap's whole life.
#[derive(Clone, Copy, Debug, PartialEq, Eq)]
pub struct Totals {
    pub retains: u64,
    pub releases: u64,
}
