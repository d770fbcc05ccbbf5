//! The first fault of all parts.

ghost use Rattle.std.specs.Prelude.{◌≡◌, ◌≤◌, IfOk, None, length, take};
ghost use Rattle.sil_cfg.specs.inner.Build.{IsGraphOf};
ghost use Rattle.memory_rules_parts.specs.inner.Batches as batches;
ghost use Rattle.memory_rules_parts.specs.inner.Batches.{AreReturns, AreRising, IsFirstAmong};
ghost use Rattle.memory_rules_parts.specs.Shown.{IsFirstFinding};

use crate::meaning::subject_of;
use crate::part::Part;
use crate::parts::parts_of;
use crate::search::first_number;
use crate::single::first_of_part;
use memory_rules_accesses::Memory;
use ownership_kinds_chains::Kinds;
use sil_ast::{Exhausted, Function, ValueId};
use sil_cfg::{Graph, returns_by_item};
use sil_rules::{RuleFault, earlier};
use std::alloc::Global;

/// The most parts that are searched together.
const BATCH: usize = 1024;

/// How many parts stand before the first at which a walk shows a fault.
fn count_clean(
    alloc: Global,
    f: &Function,
    g: &Graph,
    k: &Kinds,
    m: &Memory,
    returns: &[bool],
    parts: &[Part],
) -> Result<usize, Exhausted>
    requires graph { IsGraphOf g.now f.now }
    requires returns { AreReturns f.now g.now returns.now }
    ensures within { IfOk result (λ n. n ≤ length parts.now) }
    ensures clean { IfOk result (λ n. IsFirstAmong m.now f.now g.now k.now (take n parts.now) None) }
{
    let mut first = 0;
    while first < parts.len() {
        let count = BATCH.min(parts.len() - first);
        let batch = &parts[first..first + count];
        if let Some(fault) = first_number(alloc, f, g, k, m, returns, batch)? {
            return Ok(first + count.min(fault.subject as usize));
        }
        first += count;
    }
    Ok(first)
}

/// Whether there is a fault, and of a lesser subject.
fn is_behind(best: &Option<RuleFault>, subject: ValueId) -> bool
    ensures { result ≡ batches.is_behind best.now subject }
{
    match best {
        None => false,
        Some(fault) => fault.subject.0 < subject.0,
    }
}

/// The first fault that some walk shows at the parts, if none is shown at those before the number `start`.
fn first_from(
    alloc: Global,
    f: &Function,
    g: &Graph,
    k: &Kinds,
    m: &Memory,
    returns: &[bool],
    parts: &[Part],
    start: usize,
) -> Result<Option<RuleFault>, Exhausted>
    requires graph { IsGraphOf g.now f.now }
    requires returns { AreReturns f.now g.now returns.now }
    requires rising { AreRising parts.now }
    requires within { start ≤ length parts.now }
    requires clean { IsFirstAmong m.now f.now g.now k.now (take start parts.now) None }
    ensures { IfOk result (IsFirstAmong m.now f.now g.now k.now parts.now) }
{
    let mut best = None;
    for number in start..parts.len() {
        let part = parts[number];
        if is_behind(&best, subject_of(part)) {
            return Ok(best);
        }
        let next = first_of_part(alloc, f, g, k, m, returns, part)?;
        best = earlier(best, next);
    }
    Ok(best)
}

/// The first fault that some walk of the function shows of memory, by rules 601 to 610 without the order of two slots:
/// that of the least value, with its first rule and a walk of fewest edges; none where nothing is shown.
/// `g` is the graph of `f`, `k` has its kinds and marks, and `m` what its values are to memory.
pub fn first_fault(
    alloc: Global,
    f: &Function,
    g: &Graph,
    k: &Kinds,
    m: &Memory,
) -> Result<Option<RuleFault>, Exhausted>
    requires graph { IsGraphOf g.now f.now }
    ensures { IfOk result (IsFirstFinding m.now f.now g.now k.now) }
{
    let parts = parts_of(alloc, m, k)?;
    let returns = returns_by_item(alloc, f, g)?;
    let start = count_clean(alloc, f, g, k, m, &returns, &parts)?;
    first_from(alloc, f, g, k, m, &returns, &parts, start)
}
