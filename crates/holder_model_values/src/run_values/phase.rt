//! The life of an object.

/// Where an object stands in its life.
#[derive(Clone, Copy, Debug, PartialEq, Eq)]
pub enum Phase {
    /// It was made, and its last strong reference isn't gone.
    Live,
    /// Its last strong reference went: its deinitialisers run.
    Deiniting,
    /// They have returned, and it keeps nothing any more.
    Dead,
}
