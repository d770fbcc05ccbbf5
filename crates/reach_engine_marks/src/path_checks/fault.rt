//! What a check finds, and how it is reported.

ghost use Rattle.std.specs.Prelude.{◌≡◌};
ghost use Rattle.reach_engine_marks.specs.PathChecks.inner.Reported.{found_at};

use sil_ast::{EdgeId, List, PointId, ValueId};
use sil_cfg::Item;
use sil_rules::{Rule, RuleFault};

/// A subject whose pattern breaks, the rule of the mark that breaks it, and a walk that shows it at an item, with the item's point.
#[derive(Drop)]
pub struct PathFault {
    pub subject: u32,
    pub rule: Rule,
    pub walk: List<EdgeId>,
    pub point: PointId,
    pub item: Item,
}

impl PathFault {
    /// What is reported where subjects are values, with the other value that takes part, if the rule has one.
    pub fn report(self, other: Option<ValueId>) -> RuleFault
        ensures fault { found_at result self.item ≡ self }
        ensures other { result.other ≡ other }
    {
        RuleFault {
            rule: self.rule,
            subject: ValueId(self.subject),
            other,
            point: self.point,
            walk: self.walk,
        }
    }
}
