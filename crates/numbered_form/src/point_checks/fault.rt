//! A broken rule that no walk is needed to show, which of two comes first, and how one is reported.

ghost use Rattle.std.specs.Prelude.{◌≡◌, Some};
ghost use Rattle.numbered_form.specs.PointChecks.inner.Faults as faults;
ghost use Rattle.numbered_form.specs.PointChecks.inner.Faults.{comes_before, key_of};
ghost use Rattle.numbered_form.specs.PointChecks.inner.Reports.{IsReport};

use sil_ast::{List, PointId, ValueId};
use sil_rules::{Rule, RuleFault};
use std::alloc::Global;

/// A rule that is broken at a point, whether a walk goes there or not.
#[derive(Clone, Copy, Debug, PartialEq, Eq)]
pub struct PointFault {
    pub rule: Rule,
    /// The value of which the rule is broken.
    pub subject: ValueId,
    pub point: PointId,
}

/// Whether the one comes before the other: by value, then by rule, then by point.
fn is_before(one: &PointFault, other: &PointFault) -> bool
    ensures { result ≡ comes_before (key_of one.now) (key_of other.now) }
{
    if one.subject.0 != other.subject.0 {
        return one.subject.0 < other.subject.0;
    }
    let rule = one.rule.number();
    let other_rule = other.rule.number();
    if rule != other_rule {
        return rule < other_rule;
    }
    if one.point.block.0 != other.point.block.0 {
        return one.point.block.0 < other.point.block.0;
    }
    one.point.index < other.point.index
}

/// The first of what was found and of one more fault: by value, then by rule, then by point.
pub fn lesser(found: Option<PointFault>, fault: PointFault) -> Option<PointFault>
    ensures { result ≡ Some (faults.lesser found fault) }
{
    match found {
        Some(before) if !is_before(&fault, &before) => Some(before),
        _ => Some(fault),
    }
}

/// The fault as it is reported, with the other value that takes part in it. No walk shows it.
pub fn rule_fault(alloc: Global, fault: PointFault, other: Option<ValueId>) -> RuleFault
    ensures { IsReport fault other result }
{
    RuleFault {
        rule: fault.rule,
        subject: fault.subject,
        other,
        point: fault.point,
        walk: List::new(alloc),
    }
}
