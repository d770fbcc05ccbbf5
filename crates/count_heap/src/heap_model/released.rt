//! What a release answers.

/// Whether a release took the last strong reference of a live object.
#[derive(Clone, Copy, Debug, PartialEq, Eq)]
pub enum Released {
    /// It did: its deinitialisation has to start.
    LastGone,
    /// There are more, or the object is being deinitialised.
    Held,
}

/// A release of an object that has no strong reference.
#[derive(Clone, Copy, Debug, PartialEq, Eq)]
pub struct Underflow {
    /// How many it has: none.
    pub count: u64,
}
