//! What the measures of some members or payloads come to, counted just past the limits.

ghost use Rattle.std.specs.Prelude.{◌≡◌, ◌≤◌, [], ◌∷◌};
ghost use Rattle.sil_types_declarations.specs.TypeDefinitions.Measures.{measured};
ghost use Rattle.sil_types_items.specs.TypeMeasures.inner.Gathered.{gathered, with_member, as_members, as_payloads};

use sil_rules::limits::{DEPTH, LEAVES};
use sil_types_declarations::Measure;

/// The most leaves that are told apart: one more than the limit stands for any number above it.
pub(crate) const MOST_LEAVES: u32 = LEAVES + 1;

/// The greatest depth that is told apart: one more than the limit stands for any above it.
pub(crate) const MOST_DEPTH: u32 = DEPTH + 1;

/// What some measures come to together.
#[derive(Clone, Copy)]
pub(crate) struct Gathered {
    pub trivial: bool,
    /// The leaves of all, at most `MOST_LEAVES`.
    pub leaves: u32,
    /// The leaves of the one that has most.
    pub most: u32,
    /// The depth of the deepest.
    pub depth: u32,
}

impl Gathered {
    pub(crate) fn new() -> Gathered
        ensures { result ≡ gathered [] }
    {
        Gathered {
            trivial: true,
            leaves: 0,
            most: 0,
            depth: 0,
        }
    }

    /// With one more.
    pub(crate) fn and(self, member: Measure) -> Gathered
        ensures { result ≡ with_member self member }
    {
        Gathered {
            trivial: self.trivial && member.trivial,
            leaves: self.leaves.saturating_add(member.leaves).min(MOST_LEAVES),
            most: self.most.max(member.leaves),
            depth: self.depth.max(member.depth),
        }
    }

    /// Of a struct or tuple with these members.
    pub(crate) fn as_members(self) -> Measure
        ensures { result ≡ as_members self }
    {
        Measure {
            trivial: self.trivial,
            leaves: self.leaves,
            depth: self.depth.saturating_add(1).min(MOST_DEPTH),
        }
    }

    /// Of the one that there is.
    pub(crate) fn as_itself(self) -> Measure
        ensures { result ≡ measured self.trivial self.leaves self.depth }
    {
        Measure {
            trivial: self.trivial,
            leaves: self.leaves,
            depth: self.depth,
        }
    }

    /// Of an enum with these payloads.
    pub(crate) fn as_payloads(self) -> Measure
        ensures { result ≡ as_payloads self }
    {
        Measure {
            trivial: self.trivial,
            leaves: self.most.saturating_add(1).min(MOST_LEAVES),
            depth: self.depth.saturating_add(1).min(MOST_DEPTH),
        }
    }
}
