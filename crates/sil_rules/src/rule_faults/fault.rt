//! What a check finds.

use crate::Rule;
use sil_ast::{EdgeId, List, PointId, ValueId};

/// A broken rule: the value of which it is broken, the point, and a walk that shows it.
#[derive(Drop)]
pub struct RuleFault {
    pub rule: Rule,
    pub subject: ValueId,
    /// The other value that takes part, for those rules that have one.
    pub other: Option<ValueId>,
    pub point: PointId,
    /// The edges from the entry to the point; empty for a rule that speaks of no walk.
    pub walk: List<EdgeId>,
}

/// Why a check doesn't answer `Ok`.
#[derive(Drop)]
pub enum RuleEnd {
    Fault(RuleFault),
    /// There was no memory left.
    Memory,
}
