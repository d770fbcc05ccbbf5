//! The search of walks for a break of some of the parts.

ghost use Rattle.std.specs.Prelude.{◌≤◌, IfOk, IfSome, length};
ghost use Rattle.sil_cfg.specs.inner.Build.{IsGraphOf};
ghost use Rattle.memory_rules_parts.specs.inner.Batches.{AreReturns, IsFirstNumber};
ghost use Rattle.memory_rules_parts.specs.inner.Index.{IsIndexOf};

use crate::batch::{Batch, Room};
use crate::concerned::add_parts;
use crate::index::{ROWS, index_of};
use crate::part::Part;
use memory_rules_accesses::Memory;
use ownership_kinds_chains::Kinds;
use reach_engine_marks::{PathFault, entries_by_item, first_fault, marks_by_subject};
use sil_ast::{Exhausted, Function};
use sil_cfg::Graph;
use std::alloc::Global;

/// Of at most this many parts each is asked for every access: to find some of them would take as long.
const FEW: usize = 16;

/// An index of the parts, where there are many.
fn index_of_many(
    alloc: Global,
    m: &Memory,
    parts: &[Part],
) -> Result<Option<Vec<Vec<u32>>>, Exhausted>
    requires { length parts.now ≤ 1024 }
    ensures { IfOk result (λ index. IfSome index (λ rows. IsIndexOf m.now parts.now rows.items)) }
{
    if parts.len() <= FEW {
        return Ok(None);
    }
    Ok(Some(index_of(alloc, m, parts)?))
}

/// The first of the parts whose switch breaks on some walk, by its number among them, with its first rule and a walk of fewest edges that shows it.
pub(crate) fn first_number(
    alloc: Global,
    f: &Function,
    g: &Graph,
    k: &Kinds,
    m: &Memory,
    returns: &[bool],
    parts: &[Part],
) -> Result<Option<PathFault>, Exhausted>
    requires graph { IsGraphOf g.now f.now }
    requires returns { AreReturns f.now g.now returns.now }
    requires few { length parts.now ≤ 1024 }
    ensures { IfOk result (IsFirstNumber m.now f.now g.now k.now parts.now) }
{
    let mut concerned = [false; ROWS];
    add_parts(&mut concerned, m, parts);
    let index = index_of_many(alloc, m, parts)?;
    let batch = Batch {
        f,
        k,
        m,
        parts,
        concerned: &concerned,
        index,
    };
    let mut room = Room::new(alloc);
    let entries = entries_by_item(alloc, &batch, &mut room, g)?;
    let marks = marks_by_subject(alloc, &batch, parts.len())?;
    first_fault(alloc, f, g, &entries, &marks, returns)
}
