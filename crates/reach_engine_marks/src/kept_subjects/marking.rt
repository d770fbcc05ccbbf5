//! The one call: which subjects some walk breaks.

ghost use Rattle.std.specs.Prelude.{◌≡◌, ◌+◌, ◌≤◌, ◌^◌, length, OnOk};
ghost use Rattle.sil_cfg.specs.Flow.{numbered};
ghost use Rattle.sil_cfg.specs.Layout.{item_count};
ghost use Rattle.number_tables.specs.PathLists.inner.Lists.{list_at};
ghost use Rattle.reach_engine_marks.specs.KeptSubjects.inner.Broken.{AreBroken};

use crate::kept_subjects::blocks::mark_blocks;
use crate::kept_subjects::settling::Settling;
use crate::path_checks::Entry;
use number_tables::ItemLists;
use reach_engine::{FoundAll, search_all};
use sil_ast::Exhausted;
use sil_cfg::Graph;
use std::alloc::Global;

/// Marks, of the `count` subjects from `first` on, those that some walk breaks.
/// `entries` has what each item of the graph does, by the item's number.
pub fn mark_broken(
    alloc: Global,
    g: &Graph,
    entries: &ItemLists<Entry>,
    first: usize,
    count: usize,
    broken: &mut [bool],
) -> Result<(), Exhausted>
    requires items { length entries.now ≡ item_count g.now }
    requires few { count ≤ 1024 }
    requires fits { first + count ≤ 2 ^ 32 }
    requires room { first + count ≤ length broken.old }
    ensures { OnOk result (AreBroken (numbered g.now) (list_at entries.now) first count broken.old broken.new) }
{
    let _blocks = g.blocks();
    let family = Settling {
        entries,
        first,
        count,
    };
    match search_all(alloc, g, &family)? {
        // a settling subject never breaks
        FoundAll::Fault { .. } => Ok(()),
        FoundAll::Clean(map) => mark_blocks(alloc, &family, g, &map, broken),
    }
}
