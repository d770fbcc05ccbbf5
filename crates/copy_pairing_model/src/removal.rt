//! How a copy can go.

/// How a `copy_value` can go ([docs/OPTIMISER.md](../../../docs/OPTIMISER.md)).
#[derive(Clone, Copy, Debug, PartialEq, Eq)]
pub enum Removal {
    /// It can't.
    No,
    /// It becomes a `begin_borrow`, and each `destroy_value` of it an `end_borrow`.
    Borrow,
    /// It becomes a `move_value`, and the `destroy_value` of what it copies goes.
    Move,
}
