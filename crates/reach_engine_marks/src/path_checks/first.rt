//! The first fault of all subjects.

ghost use Rattle.std.specs.Prelude.{◌≡◌, ◌+◌, ◌<◌, ◌≤◌, ◌^◌, List, length, IfOk};
ghost use Rattle.sil_cfg.specs.declared.item.Item.{Item};
ghost use Rattle.sil_cfg.specs.Layout.{item_count};
ghost use Rattle.sil_cfg.specs.inner.Build.{IsGraphOf};
ghost use Rattle.reach_engine_marks.specs.PathPatterns.inner.Reads.{AgreesWith};
ghost use Rattle.reach_engine_marks.specs.declared.path_checks.entry.Entry as entry;
ghost use Rattle.reach_engine_marks.specs.PathChecks.inner.Chunks.{IsFirstOfChunk};
ghost use Rattle.reach_engine_marks.specs.PathChecks.inner.Shared.{entries_among, entries_with};
ghost use Rattle.reach_engine_marks.specs.PathChecks.First.{IsFirst};

use crate::path_checks::bound::subject_bound;
use crate::path_checks::chunk::Chunk;
use crate::path_checks::entry::Entry;
use crate::path_checks::fault::PathFault;
use crate::path_checks::sharing::shared_entries;
use crate::path_patterns::Mark;
use number_tables::ItemLists;
use reach_engine::first_broken;
use sil_ast::{Exhausted, Function};
use sil_cfg::Graph;
use sil_rules::Rule;
use std::alloc::Global;

/// The most subjects that are searched together.
const CHUNK: usize = 1024;

/// The first fault of the `count` subjects from `first` on.
fn first_of_chunk(
    alloc: Global,
    g: &Graph,
    entries: &ItemLists<Entry>,
    shared: &[Entry],
    sharing: &[bool],
    first: usize,
    count: usize,
) -> Result<Option<PathFault>, Exhausted>
    requires items { length entries.now ≡ item_count g.now }
    requires few { count ≤ 1024 }
    requires fits { first + count ≤ 2 ^ 32 }
    ensures { IfOk result (IsFirstOfChunk g.now (entries_among entries.now shared.now sharing.now) first count) }
{
    let chunk = Chunk {
        entries,
        shared,
        sharing,
        first,
        count,
    };
    match first_broken(alloc, g, &chunk)? {
        None => Ok(None),
        Some(broken) => Ok(Some(PathFault {
            subject: (first + broken.subject) as u32,
            rule: Rule::at(broken.code),
            walk: broken.walk,
            point: g.point(broken.item),
            item: g.item(broken.item),
        })),
    }
}

/// The first fault that some walk of the function shows: by subject, then by rule, then with fewest edges; none where nothing is shown.
/// `entries` has what each item of the function's graph does, by the item's number. `marks` has the entries that items share:
/// for each subject, by its number, a mark or none.
/// The items that have true in `sharing`, by their numbers, have these entries too, behind their own.
/// All that has no place in `marks` or `sharing` has none of it.
pub fn first_fault(
    alloc: Global,
    f: &Function,
    g: &Graph,
    entries: &ItemLists<Entry>,
    marks: &[Option<Mark>],
    sharing: &[bool],
) -> Result<Option<PathFault>, Exhausted>
    requires graph { IsGraphOf g.now f.now }
    requires items { length entries.now ≡ item_count g.now }
    requires marks { length marks.now ≤ 2 ^ 32 }
    ensures { IfOk result (λ r. (table : Item → List entry.Entry) → AgreesWith g.now (entries_with entries.now marks.now sharing.now) table
        → IsFirst f.now table r) }
{
    let shared = shared_entries(alloc, marks)?;
    let subjects = subject_bound(entries, marks.len());
    let mut first = 0;
    while first < subjects {
        let count = CHUNK.min(subjects - first);
        if let Some(fault) = first_of_chunk(
            alloc,
            g,
            entries,
            shared.as_slice(),
            sharing,
            first,
            count,
        )? {
            return Ok(Some(fault));
        }
        first += count;
    }
    Ok(None)
}
