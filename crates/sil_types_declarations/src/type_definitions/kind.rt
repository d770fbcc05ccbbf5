//! Ownership kinds.

/// The kind of a value: it is owned, or guaranteed by another's owner, or it needs neither. The third is written None where people read it.
#[derive(Clone, Copy, Debug, PartialEq, Eq)]
pub enum Kind {
    Owned,
    Guaranteed,
    Plain,
}
