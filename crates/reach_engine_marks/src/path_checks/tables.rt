//! The tables of a check, made item by item and subject by subject.

ghost use Rattle.std.specs.Prelude.{◌≡◌, ◌≤◌, ◌^◌, ◌++◌, [], ◌∷◌, ◌<◌, ℕ, List, Option, Some, length, map, IfOk, OnOk};
ghost use Rattle.std.specs.List.{range_with_len};
ghost use Rattle.sil_cfg.specs.declared.item.Item.{Item};
ghost use Rattle.sil_cfg.specs.Layout.{item_at, item_count};
ghost use Rattle.number_tables.specs.PathLists.inner.Lists.{list_at};
ghost use Rattle.reach_engine_marks.specs.declared.path_patterns.mark.Mark.{Mark};
ghost use Rattle.reach_engine_marks.specs.declared.path_checks.entry.Entry.{Entry};

use crate::path_checks::entry::Entry;
use crate::path_patterns::Mark;
use number_tables::ItemLists;
use sil_ast::Exhausted;
use sil_cfg::{Graph, Item};
use std::alloc::Global;

/// What each item does to the subjects.
pub trait ItemTable {
    /// Memory that the table needs at an item. What it holds doesn't matter.
    type Room;

    /// What the table is made of goes together.
    ghost fits: { Self → Type 0 };

    ghost entries_at: { Self → ℕ → Item → List Entry };

    /// Adds what the item with this number does.
    fn add_entries(
        &self,
        room: &mut Self::Room,
        entries: &mut Vec<Entry>,
        number: usize,
        item: Item,
    ) -> Result<(), Exhausted>
        requires { fits self.now }
        ensures { OnOk result (entries.new.items ≡ entries.old.items ++ entries_at self.now number item) };
}

/// The mark that items share, of each subject.
pub trait SubjectMarks {
    ghost mark_of: { Self → ℕ → Option Mark };

    /// The mark of the subject with this number, if it has one.
    fn shared_mark(&self, subject: u32) -> Option<Mark>
        ensures { result ≡ mark_of self.now subject };
}

/// The entries of an item, as those behind the items before. `own` is room for them.
fn push_item<T: ItemTable>(
    table: &T,
    room: &mut T::Room,
    all: &mut ItemLists<Entry>,
    own: &mut Vec<Entry>,
    number: usize,
    item: Item,
) -> Result<(), Exhausted>
    requires { T.fits table.now }
    ensures { OnOk result (all.new ≡ all.old ++ T.entries_at table.now number item ∷ []) }
{
    own.clear();
    table.add_entries(room, own, number, item)?;
    all.push(own.as_slice())
}

/// The entries of every item of the graph, by the item's number.
pub fn entries_by_item<T: ItemTable>(
    alloc: Global,
    table: &T,
    room: &mut T::Room,
    g: &Graph,
) -> Result<ItemLists<Entry>, Exhausted>
    requires { T.fits table.now }
    ensures size { IfOk result (λ v. length v ≡ item_count g.now) }
    ensures entries { IfOk result (λ v. (n : ℕ) (item : Item) → item_at g.now n ≡ Some item → list_at v n ≡ T.entries_at table.now n item) }
{
    let mut all = ItemLists::with_capacity(alloc, g.items())?;
    let mut own = Vec::new(alloc);
    for i in 0..g.items() {
        push_item(table, room, &mut all, &mut own, i, g.item(i))?;
    }
    Ok(all)
}

/// The mark that items share, of each of `count` subjects, by the subject's number.
pub fn marks_by_subject<T: SubjectMarks>(
    alloc: Global,
    table: &T,
    count: usize,
) -> Result<Vec<Option<Mark>>, Exhausted>
    requires { count ≤ 2 ^ 32 }
    ensures marks { IfOk result (λ v. v.items ≡ map (T.mark_of table.now) (range_with_len 0 count)) }
    ensures few { IfOk result (λ v. length v.items ≤ 2 ^ 32) }
{
    let mut marks = Vec::with_capacity(alloc, count)?;
    for subject in 0..count {
        marks.push(table.shared_mark(subject as u32))?;
    }
    Ok(marks)
}
