//! Locations: roots, and the steps from a root to a part.

ghost use Rattle.std.specs.Prelude.{◌≡◌};
ghost use Rattle.memory_rules_accesses.specs.Locations as locations;
ghost use Rattle.memory_rules_accesses.specs.Rows as rows;

use sil_ast::{List, ValueId};

/// A location: a slot, what is at an address that the entry is given, or the field of an object, each by the value that is its address;
/// and the numbers of the members and elements that lead from there to a part.
#[derive(Drop)]
pub struct Location {
    pub root: ValueId,
    pub path: List<usize>,
}

/// Something whose contents are followed: what is at a root, or the field with a number of a new object.
#[derive(Clone, Copy, Debug, PartialEq, Eq)]
pub struct Cell {
    pub subject: ValueId,
    pub field: Option<usize>,
}

impl Location {
    /// Whether it is a part: steps lead from the root to it.
    pub fn is_part(&self) -> bool
        ensures { result ≡ rows.is_part self.now }
    {
        !self.path.is_empty()
    }
}

/// Whether two locations overlap: one is the other or a part of it.
pub(crate) fn overlap(a: &Location, b: &Location) -> bool
    ensures { result ≡ locations.overlap a.now b.now }
{
    let x = a.path.as_slice();
    let y = b.path.as_slice();
    a.root.0 == b.root.0 && (x.starts_with(y) || y.starts_with(x))
}
