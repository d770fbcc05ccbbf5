//! Which of two faults comes first.

ghost use Rattle.std.specs.Prelude.{◌≡◌, true, false};
ghost use Rattle.sil_rules.specs.Order.{IsEarlier, NotAfter};
ghost use Rattle.sil_rules.specs.RuleFaults.Keys.{fault_key};

use crate::rule_faults::fault::RuleFault;

/// Whether the first doesn't come after the second: by subject, then by rule, then by the number of edges.
fn is_not_after(a: &RuleFault, b: &RuleFault) -> bool
    ensures yes { result ≡ true → NotAfter (fault_key a.now) (fault_key b.now) }
    ensures no { result ≡ false → NotAfter (fault_key b.now) (fault_key a.now) }
{
    if a.subject.0 != b.subject.0 {
        return a.subject.0 < b.subject.0;
    }
    let one = a.rule.number();
    let other = b.rule.number();
    if one != other {
        return one < other;
    }
    a.walk.len() <= b.walk.len()
}

/// The one that comes first, if there is one.
pub fn earlier(a: Option<RuleFault>, b: Option<RuleFault>) -> Option<RuleFault>
    ensures { IsEarlier fault_key a b result }
{
    match (a, b) {
        (None, b) => b,
        (a, None) => a,
        (Some(a), Some(b)) => {
            if is_not_after(&a, &b) {
                Some(a)
            } else {
                Some(b)
            }
        }
    }
}
