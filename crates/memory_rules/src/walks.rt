//! The first fault that walks show of memory.

ghost use Rattle.std.specs.Prelude.{◌≡◌, IfOk};
ghost use Rattle.std.specs.List.{list_any};
ghost use Rattle.sil_cfg.specs.inner.Build.{IsGraphOf};
ghost use Rattle.memory_rules_accesses.specs.Sources.{is_slot_source};
ghost use Rattle.memory_rules.specs.inner.Reports.{IsFirstShown, IsOrderBreak, IsWalkBreak};

use crate::reports::crossing_report;
use memory_rules_accesses::{Memory, Source, accesses_by_item};
use memory_rules_parts::first_fault;
use memory_rules_slots::first_crossing;
use ownership_kinds_chains::Kinds;
use sil_ast::{Exhausted, Function};
use sil_cfg::Graph;
use sil_rules::{RuleFault, earlier};
use std::alloc::Global;

fn has_slots(sources: &[Source]) -> bool
    ensures { result ≡ list_any is_slot_source sources.now }
{
    sources
        .iter()
        .any(|source| matches!(source, Source::Slot { .. }))
}

/// The first that is shown of two slots. Most functions have none, and what their items do is not listed for it.
fn first_of_slots(
    alloc: Global,
    f: &Function,
    g: &Graph,
    k: &Kinds,
    m: &Memory,
) -> Result<Option<RuleFault>, Exhausted>
    requires { IsGraphOf g.now f.now }
    ensures { IfOk result (IsFirstShown (IsOrderBreak m.now f.now) f.now g.now k.now) }
{
    let sources = m.sources();
    if !has_slots(sources) {
        return Ok(None);
    }
    let accesses = accesses_by_item(alloc, f, g, k, m)?;
    match first_crossing(alloc, f, g, k, sources, &accesses)? {
        None => Ok(None),
        Some(crossing) => Ok(Some(crossing_report(crossing))),
    }
}

/// The first that a walk shows of memory.
/// `g` is the graph of `f`, `k` has its kinds and marks, and `m` what its values are to memory.
pub(crate) fn first_on_walks(
    alloc: Global,
    f: &Function,
    g: &Graph,
    k: &Kinds,
    m: &Memory,
) -> Result<Option<RuleFault>, Exhausted>
    requires { IsGraphOf g.now f.now }
    ensures { IfOk result (IsFirstShown (IsWalkBreak m.now f.now) f.now g.now k.now) }
{
    let part = first_fault(alloc, f, g, k, m)?;
    let crossing = first_of_slots(alloc, f, g, k, m)?;
    Ok(earlier(part, crossing))
}
