//! Why a module is refused by a rule.

use sil_ast::{EdgeId, FuncId, List, PointId, ValueId};
use sil_rules::Rule;

/// The first rule that a module breaks, and where.
#[derive(Drop)]
pub struct Refusal {
    pub rule: Rule,
    /// Of 101 to 104 and 208 the item. Items are numbered from 0 over declarations, functions and vtables, in that order.
    pub item: Option<u32>,
    /// Of all others the function.
    pub function: Option<FuncId>,
    /// The point in it, unless the rule is about the function itself.
    pub point: Option<PointId>,
    /// Of 301 to 611 the value of which the rule is broken.
    pub subject: Option<ValueId>,
    /// The other value that takes part, for those rules that have one.
    pub other: Option<ValueId>,
    /// The edges from the entry to the point; empty for a rule that speaks of no walk.
    pub walk: List<EdgeId>,
}
