//! The check of rules 401 to 404.

ghost use Rattle.std.specs.Prelude.{IfErr, IfOk, OnOk};
ghost use Rattle.sil_cfg.specs.inner.Build.{IsGraphOf};
ghost use Rattle.lifetime_worklist.specs.inner.Lifetimes.{AreLivesKept, IsFirstLife, IsLifeBroken};

use crate::lives::Lives;
use ownership_kinds_chains::Kinds;
use reach_engine_marks::{PathFault, entries_by_item, first_fault, marks_by_subject};
use sil_ast::{Exhausted, Function};
use sil_cfg::{Graph, returns_by_item};
use sil_rules::RuleEnd;
use std::alloc::Global;

/// The first Owned value whose life some walk breaks, with a walk of fewest edges that shows it.
fn first_broken(
    alloc: Global,
    f: &Function,
    g: &Graph,
    k: &Kinds,
) -> Result<Option<PathFault>, Exhausted>
    requires { IsGraphOf g.now f.now }
    ensures { IfOk result (IsFirstLife f.now g.now k.now) }
{
    let lives = Lives { k };
    let entries = entries_by_item(alloc, &lives, &mut (), g)?;
    let marks = marks_by_subject(alloc, &lives, k.values())?;
    let returns = returns_by_item(alloc, f, g)?;
    first_fault(alloc, f, g, &entries, &marks, &returns)
}

/// Checks rules 401 to 404: on every walk each Owned value is used (401) and ended (402) only while it lives, is not alive at a `return` (403),
/// and begins only while it is not alive (404). `g` is the graph of `f`, and `k` has its kinds and marks.
/// The fault is that of the least value for which some walk shows one, of its first rule, and its walk has the fewest edges among those that show it.
pub fn check(alloc: Global, f: &Function, g: &Graph, k: &Kinds) -> Result<(), RuleEnd>
    requires { IsGraphOf g.now f.now }
    ensures ok { OnOk result (AreLivesKept f.now g.now k.now) }
    ensures fault { IfErr result (IsLifeBroken f.now g.now k.now) }
{
    match first_broken(alloc, f, g, k) {
        Err(_) => Err(RuleEnd::Memory),
        Ok(None) => Ok(()),
        Ok(Some(fault)) => Err(RuleEnd::Fault(fault.report(None))),
    }
}
