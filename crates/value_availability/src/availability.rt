//! The check of rule 301.

ghost use Rattle.std.specs.Prelude.{IfOk, OnOk, IfErr};
ghost use Rattle.sil_cfg.specs.inner.Build.{IsGraphOf};
ghost use Rattle.reach_engine_marks.specs.PathChecks.First.{IsFirst};
ghost use Rattle.value_availability.specs.Accesses.{accesses_of};
ghost use Rattle.value_availability.specs.inner.Availability.{IsAvailable, IsUndefined};

use crate::accesses::Accesses;
use reach_engine_marks::{PathFault, entries_by_item, first_fault};
use sil_ast::{Exhausted, Function};
use sil_cfg::Graph;
use sil_rules::RuleEnd;
use std::alloc::Global;

/// The first value that some walk uses before its definition, with a walk of fewest edges that shows it.
fn first_undefined(alloc: Global, f: &Function, g: &Graph) -> Result<Option<PathFault>, Exhausted>
    requires { IsGraphOf g.now f.now }
    ensures { IfOk result (IsFirst f.now (accesses_of f.now)) }
{
    let entries = entries_by_item(alloc, &Accesses { f }, &mut (), g)?;
    first_fault(alloc, f, g, &entries, &[], &[])
}

/// Checks rule 301: on every walk each value is an operand only after its definition. `g` is the graph of `f`.
/// The fault is that of the least value for which some walk shows one, and its walk has the fewest edges among those that do.
pub fn check(alloc: Global, f: &Function, g: &Graph) -> Result<(), RuleEnd>
    requires { IsGraphOf g.now f.now }
    ensures ok { OnOk result (IsAvailable f.now) }
    ensures fault { IfErr result (IsUndefined f.now) }
{
    match first_undefined(alloc, f, g) {
        Err(_) => Err(RuleEnd::Memory),
        Ok(None) => Ok(()),
        Ok(Some(fault)) => Err(RuleEnd::Fault(fault.report(None))),
    }
}
