//! What is measured on types.

/// Whether a type is trivial, how many leaves it has, and how deep it is.
#[derive(Clone, Copy, Debug, PartialEq, Eq)]
pub struct Measure {
    /// Whether it holds no reference.
    pub trivial: bool,
    pub leaves: u32,
    pub depth: u32,
}
