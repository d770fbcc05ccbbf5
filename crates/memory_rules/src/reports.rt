//! What walks show of two slots, as it is reported.

ghost use Rattle.std.specs.Prelude.{◌≡◌};
ghost use Rattle.memory_rules.specs.inner.Reports.{report_of};

use memory_rules_slots::Crossing;
use sil_rules::{Rule, RuleFault};

/// What is found of two slots, as it is reported: the later one takes part.
pub(crate) fn crossing_report(crossing: Crossing) -> RuleFault
    ensures { result ≡ report_of crossing }
{
    RuleFault {
        rule: Rule::StackOrder,
        subject: crossing.first,
        other: Some(crossing.other),
        point: crossing.point,
        walk: crossing.walk,
    }
}
