//! One part by itself.

ghost use Rattle.std.specs.Prelude.{[], ◌∷◌, IfOk};
ghost use Rattle.sil_cfg.specs.inner.Build.{IsGraphOf};
ghost use Rattle.memory_rules_parts.specs.inner.Batches.{AreReturns, IsFirstAmong};

use crate::meaning::subject_of;
use crate::others::other_of;
use crate::part::Part;
use crate::search::first_number;
use memory_rules_accesses::{Memory, accesses_anew};
use ownership_kinds_chains::Kinds;
use sil_ast::{Exhausted, Function};
use sil_cfg::Graph;
use sil_rules::RuleFault;
use std::alloc::Global;

/// The first fault that some walk shows at the part.
pub(crate) fn first_of_part(
    alloc: Global,
    f: &Function,
    g: &Graph,
    k: &Kinds,
    m: &Memory,
    returns: &[bool],
    part: Part,
) -> Result<Option<RuleFault>, Exhausted>
    requires graph { IsGraphOf g.now f.now }
    requires returns { AreReturns f.now g.now returns.now }
    ensures { IfOk result (IsFirstAmong m.now f.now g.now k.now (part ∷ [])) }
{
    let single = [part];
    match first_number(alloc, f, g, k, m, returns, &single)? {
        None => Ok(None),
        Some(fault) => {
            let does = accesses_anew(alloc, f, k, m, fault.item)?;
            Ok(Some(RuleFault {
                subject: subject_of(part),
                rule: fault.rule,
                walk: fault.walk,
                point: fault.point,
                other: other_of(m, part, &does),
            }))
        }
    }
}
