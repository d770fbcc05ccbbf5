//! What is counted of one object.

/// How many unowned and how many weak places name an object.
#[derive(Clone, Copy, Debug, PartialEq, Eq)]
pub struct Side {
    pub unowned: u64,
    pub weak: u64,
}

/// What a slot keeps of its object.
#[derive(Clone, Copy, Debug, PartialEq, Eq)]
pub struct SlotSides {
    pub unowned: u64,
    pub weak: u64,
    /// The object is dead.
    pub marked: bool,
}
